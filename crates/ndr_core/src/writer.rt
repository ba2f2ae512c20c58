//! A writer of one serialized structure.

ghost use Rattle.std.specs.Prelude.{◌≡◌, ◌<◌, ◌≤◌, ◌+◌, ◌%◌, ◌^◌, ◌++◌, length, take, drop, replicate, IfOk, OnOk, OnErr};
ghost use Rattle.std.specs.Int.{w8, w16, w32};
ghost use Rattle.ndr_core.specs.Fields.{gap, put_number, put_pointer, raw};
ghost use Rattle.ndr_core.specs.Arrays.{units};
ghost use Rattle.ndr_core.specs.Object.{begun, blank, header_bytes, padded, finished};

use crate::reader::gap;
use std::alloc::{AllocError, Global};
use std::marker::Model;

/// Writes the fields of one structure from left to right. A call that wants memory changes nothing.
#[derive(Drop)]
pub struct NdrWriter {
    out: Vec<u8>,
    next: u32,
}

impl Model for NdrWriter {
    ghost use Rattle.ndr_core.specs.Layout.{Written};

    ghost Value = { Written };

    ghost view = { λ w. record { bytes = w.out.items; next = w.next } };
}

/// Writes zeros up to the next multiple of a width.
#[tactic(auto, using(crate::proofs::Zeros::first_zeros))]
fn put_gap(out: &mut Vec<u8>, width: usize) -> Result<(), AllocError>
    requires some { 0 < width }
    requires few { width ≤ 8 }
    ensures ok { OnOk result (out.new.items ≡ out.old.items ++ replicate (gap width (length out.old.items)) 0) }
    ensures err { OnErr result (out.new.items ≡ out.old.items) }
{
    let gap = gap(width, out.len());
    out.extend_from_slice(&[0; 8][..gap])?;
    Ok(())
}

/// Writes a number's bytes at the next multiple of its width.
fn put_aligned(out: &mut Vec<u8>, bytes: &[u8]) -> Result<(), AllocError>
    requires some { 0 < length bytes.now }
    requires few { length bytes.now ≤ 8 }
    ensures ok { OnOk result (out.new.items ≡ out.old.items ++ (replicate (gap (length bytes.now) (length out.old.items)) 0 ++ bytes.now)) }
    ensures err { OnErr result (out.new.items ≡ out.old.items) }
{
    let mark = out.len();
    put_gap(out, bytes.len())?;
    if out.extend_from_slice(bytes).is_err() {
        out.truncate(mark);
        return Err(AllocError);
    }
    Ok(())
}

impl NdrWriter {
    /// A writer that has written a header, whose length is still open, and the pointer to the structure.
    pub fn new(alloc: Global) -> Result<NdrWriter, AllocError>
        ensures ok { IfOk result (λ w. w ≡ begun) }
    {
        let mut out = Vec::new(alloc);
        out.extend_from_slice(&header(0))?;
        out.extend_from_slice(&0x2_0000u32.to_le_bytes())?;
        Ok(NdrWriter {
            out,
            next: 0x2_0004,
        })
    }

    /// A writer of bytes without a header, which has written nothing.
    pub fn packed(alloc: Global) -> NdrWriter
        ensures value { result ≡ blank }
    {
        NdrWriter {
            out: Vec::new(alloc),
            next: 0x2_0000,
        }
    }

    /// How many bytes were written, the header's among them.
    pub fn len(&self) -> usize
        ensures value { result ≡ length self.now.bytes }
    {
        self.out.len()
    }

    /// Writes a byte.
    pub fn u8(&mut self, value: u8) -> Result<(), AllocError>
        ensures ok { OnOk result (self.new ≡ put_number w8 self.old value) }
        ensures err { OnErr result (self.new ≡ self.old) }
    {
        put_aligned(&mut self.out, &[value])
    }

    /// Writes a number of two bytes.
    pub fn u16(&mut self, value: u16) -> Result<(), AllocError>
        ensures ok { OnOk result (self.new ≡ put_number w16 self.old value) }
        ensures err { OnErr result (self.new ≡ self.old) }
    {
        put_aligned(&mut self.out, &value.to_le_bytes())
    }

    /// Writes a number of four bytes.
    pub fn u32(&mut self, value: u32) -> Result<(), AllocError>
        ensures ok { OnOk result (self.new ≡ put_number w32 self.old value) }
        ensures err { OnErr result (self.new ≡ self.old) }
    {
        put_aligned(&mut self.out, &value.to_le_bytes())
    }

    /// Writes a pointer, null where it is not `there`.
    pub fn pointer(&mut self, there: bool) -> Result<(), AllocError>
        ensures ok { OnOk result (self.new ≡ put_pointer self.old there) }
        ensures err { OnErr result (self.new ≡ self.old) }
    {
        if !there {
            return self.u32(0);
        }
        self.u32(self.next)?;
        self.next = self.next.wrapping_add(4);
        Ok(())
    }

    /// Writes bytes as they are.
    pub fn raw(&mut self, bytes: &[u8]) -> Result<(), AllocError>
        ensures ok { OnOk result (self.new ≡ (raw (length bytes.now)).written self.old bytes.now) }
        ensures err { OnErr result (self.new ≡ self.old) }
    {
        self.out.extend_from_slice(bytes)
    }

    /// Writes the three counts of a string and its units: an even number of bytes, at most 65,534.
    pub fn units(&mut self, text: &[u8]) -> Result<(), AllocError>
        requires even { length text.now % 2 ≡ 0 }
        requires few { length text.now ≤ 65534 }
        ensures ok { OnOk result (self.new ≡ (units (length text.now)).written self.old text.now) }
        ensures err { OnErr result (self.new ≡ self.old) }
    {
        let mark = self.out.len();
        let result = self.put_string(text);
        if result.is_err() {
            self.out.truncate(mark);
        }
        result
    }

    #[tactic(auto, using(crate::proofs::Zeros::front_kept, crate::proofs::Zeros::front_whole))]
    fn put_string(&mut self, text: &[u8]) -> Result<(), AllocError>
        requires few { length text.now ≤ 65534 }
        ensures ok { OnOk result (self.new ≡ (units (length text.now)).written self.old text.now) }
        ensures err { OnErr result (take (length self.old.bytes) self.new.bytes ≡ self.old.bytes) }
        ensures next { self.new.next ≡ self.old.next }
    {
        let count = (text.len() / 2) as u32;
        self.u32(count)?;
        self.u32(0)?;
        self.u32(count)?;
        self.raw(text)
    }

    /// The bytes as they were written.
    pub fn into_vec(self) -> Vec<u8>
        ensures value { result.items ≡ self.bytes }
    {
        let NdrWriter { out, next: _ } = self;
        out
    }

    /// The object: padded with zeros to a multiple of 8, and with its length in its header.
    pub fn finish(self) -> Result<Vec<u8>, AllocError>
        requires headed { 16 ≤ length self.bytes }
        requires short { length self.bytes < 2 ^ 31 }
        ensures ok { IfOk result (λ out. out.items ≡ finished self.bytes) }
    {
        let NdrWriter { mut out, next: _ } = self;
        let len = out.len() + gap(8, out.len()) - 16;
        put_gap(&mut out, 8)?;
        set_front(&mut out, &header(len as u32));
        Ok(out)
    }
}

/// Puts a header in the place of the one that stands there.
fn set_front(bytes: &mut [u8], header: &[u8; 16])
    requires { 16 ≤ length bytes.old }
    ensures { bytes.new ≡ header.now ++ drop 16 bytes.old }
{
    let (front, _) = bytes.split_at_mut(16);
    front.copy_from_slice(header);
}

/// The header of an object of this length.
fn header(len: u32) -> [u8; 16]
    ensures { result ≡ header_bytes len }
{
    let [a, b, c, d] = len.to_le_bytes();
    [
        1, 0x10, 8, 0, 0xcc, 0xcc, 0xcc, 0xcc, a, b, c, d, 0, 0, 0, 0,
    ]
}
