//! A writer of elements.
ghost use Rattle.std.specs.Prelude.{◌≡◌, ◌<◌, ◌≤◌, ◌+◌, ◌-◌, ◌^◌, ◌++◌, ◌∷◌, [], length, take, drop, OnOk, OnErr};
ghost use Rattle.std.specs.Int.{w32, to_be_bytes};
ghost use Rattle.der_core.specs.Sizes.{size, width_of};
ghost use Rattle.der_core.specs.Elements.{element};
ghost use Rattle.der_core.specs.Integers.{integer, shortest};
ghost use Rattle.der_core.specs.BitStrings.{bit_string};

use crate::integer::{eight, shortest};
use crate::length::width_of;
use std::alloc::{AllocError, Global};
use std::marker::Model;

/// Bytes that are written from left to right. A call that wants memory changes nothing.
#[derive(Drop)]
pub struct Writer {
    out: Vec<u8>,
}

impl Model for Writer {
    ghost use Rattle.std.specs.Prelude.{List, ℕ};

    ghost Value = { List ℕ };

    ghost view = { λ w. w.out.items };
}

#[tactic(auto, unfolding(crate::specs::Sizes::size))]
fn put_header(out: &mut Vec<u8>, tag: u8, len: u32) -> Result<(), AllocError>
    ensures ok { OnOk result (out.new.items ≡ out.old.items ++ (tag ∷ size len)) }
    ensures unchanged { OnErr result (out.new.items ≡ out.old.items) }
{
    if len < 128 {
        out.extend_from_slice(&[tag, len as u8])?;
        return Ok(());
    }
    let [a, b, c, d] = len.to_be_bytes();
    match width_of(len) {
        1 => out.extend_from_slice(&[tag, 0x81, d])?,
        2 => out.extend_from_slice(&[tag, 0x82, c, d])?,
        3 => out.extend_from_slice(&[tag, 0x83, b, c, d])?,
        _ => out.extend_from_slice(&[tag, 0x84, a, b, c, d])?,
    }
    Ok(())
}

fn put_element(out: &mut Vec<u8>, tag: u8, content: &[u8]) -> Result<(), AllocError>
    requires { length content.now < 2 ^ 32 }
    ensures ok { OnOk result (out.new.items ≡ out.old.items ++ element tag content.now) }
    ensures unchanged { OnErr result (out.new.items ≡ out.old.items) }
{
    let start = out.len();
    put_header(out, tag, content.len() as u32)?;
    if let Err(failed) = out.extend_from_slice(content) {
        out.truncate(start);
        return Err(failed);
    }
    Ok(())
}

/// Puts the last bytes, so many, before the others.
#[tactic(auto, using(crate::proofs::Turned::turned))]
fn put_first(bytes: &mut [u8], count: usize)
    requires { count ≤ length bytes.old }
    ensures { bytes.new ≡ drop (length bytes.old - count) bytes.old ++ take (length bytes.old - count) bytes.old }
{
    bytes.reverse();
    let (first, others) = bytes.split_at_mut(count);
    first.reverse();
    others.reverse();
}

impl Writer {
    /// Nothing is written. Takes no memory.
    pub fn new(alloc: Global) -> Writer
        ensures { result ≡ [] }
    {
        Writer {
            out: Vec::new(alloc),
        }
    }

    /// An INTEGER, in the fewest bytes.
    #[tactic(auto, unfolding(crate::specs::Integers::integer))]
    pub fn int(&mut self, value: i64) -> Result<(), AllocError>
        ensures ok { OnOk result (self.new ≡ self.old ++ element 2 (integer value)) }
        ensures unchanged { OnErr result (self.new ≡ self.old) }
    {
        put_element(&mut self.out, 2, shortest(&eight(value)))
    }

    /// A BIT STRING of 32 bits; bit 0 is the highest.
    #[tactic(auto, unfolding(crate::specs::BitStrings::bit_string))]
    pub fn bits(&mut self, bits: u32) -> Result<(), AllocError>
        ensures ok { OnOk result (self.new ≡ self.old ++ element 3 (bit_string bits)) }
        ensures unchanged { OnErr result (self.new ≡ self.old) }
    {
        let [a, b, c, d] = bits.to_be_bytes();
        put_element(&mut self.out, 3, &[0, a, b, c, d])
    }

    /// An OCTET STRING.
    pub fn octets(&mut self, bytes: &[u8]) -> Result<(), AllocError>
        requires { length bytes.now < 2 ^ 32 }
        ensures ok { OnOk result (self.new ≡ self.old ++ element 4 bytes.now) }
        ensures unchanged { OnErr result (self.new ≡ self.old) }
    {
        put_element(&mut self.out, 4, bytes)
    }

    /// A GeneralString in UTF-8.
    pub fn text(&mut self, text: &str) -> Result<(), AllocError>
        requires { length text.now < 2 ^ 32 }
        ensures ok { OnOk result (self.new ≡ self.old ++ element 0x1b text.now) }
        ensures unchanged { OnErr result (self.new ≡ self.old) }
    {
        put_element(&mut self.out, 0x1b, text.as_bytes())
    }

    /// A GeneralizedTime, `YYYYMMDDHHMMSSZ`.
    pub fn time(&mut self, time: &[u8; 15]) -> Result<(), AllocError>
        ensures ok { OnOk result (self.new ≡ self.old ++ element 0x18 time.now) }
        ensures unchanged { OnErr result (self.new ≡ self.old) }
    {
        put_element(&mut self.out, 0x18, time)
    }

    /// Bytes as they are.
    pub fn raw(&mut self, bytes: &[u8]) -> Result<(), AllocError>
        ensures ok { OnOk result (self.new ≡ self.old ++ bytes.now) }
        ensures unchanged { OnErr result (self.new ≡ self.old) }
    {
        self.out.extend_from_slice(bytes)?;
        Ok(())
    }

    /// How many bytes are written, for a later `wrap`.
    pub fn mark(&self) -> usize
        ensures { result ≡ length self.now }
    {
        self.out.len()
    }

    /// Puts a header with this tag byte before what was written since `from`.
    pub fn wrap(&mut self, tag: u8, from: usize) -> Result<(), AllocError>
        requires within { from ≤ length self.old }
        requires short { length self.old < from + 2 ^ 32 }
        ensures ok { OnOk result (self.new ≡ take from self.old ++ element tag (drop from self.old)) }
        ensures unchanged { OnErr result (self.new ≡ self.old) }
    {
        let len = self.out.len();
        put_header(&mut self.out, tag, (len - from) as u32)?;
        let header = self.out.len() - len;
        put_first(&mut self.out[from..], header);
        Ok(())
    }

    /// The bytes that were written.
    pub fn into_vec(self) -> Vec<u8>
        ensures { result.items ≡ self }
    {
        let Writer { out } = self;
        out
    }
}
