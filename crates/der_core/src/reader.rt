//! A reader over a slice.
ghost use Rattle.std.specs.Prelude.{◌≡◌, ◌<◌, ◌+◌, ◌≤◌, ◌^◌, length, IfOk, MatchOption, slice_get, nat_eq, true, false, ◌≤ℤ◌};
ghost use Rattle.std.specs.Str.{is_utf8};
ghost use Rattle.der_core.specs.Place.{At, end_of};
ghost use Rattle.der_core.specs.Sizes.{size_at};
ghost use Rattle.der_core.specs.Elements.{element_at, tag_at, done_at};
ghost use Rattle.der_core.specs.Integers.{integer_in};
ghost use Rattle.der_core.specs.BitStrings.{bits_in};
ghost use Rattle.der_core.specs.Forms.{int, int_within, within_in, bits, octets, text, texts};
ghost use Rattle.der_core.specs.Moves.{Gives, Moves};

use crate::bit_string::bits_in;
use crate::integer::{integer_in, within_in};
use crate::length::size_at;
use crate::refusal::{DerCause, DerRefusal, refuse};
use std::marker::Model;

/// Reads the elements of a slice from left to right. A call that refuses changes nothing. Places count from the start of the
/// outermost input, whose content a reader of `take` reads. No call takes memory.
#[derive(Drop)]
pub struct Reader<'a> {
    bytes: &'a [u8],
    place: u32,
}

impl<'a> Model for Reader<'a> {
    ghost use Rattle.std.specs.Prelude.{◌<◌, ◌+◌, ◌^◌, length};
    ghost use Rattle.der_core.specs.Place.{At};

    ghost Value = { At };

    ghost view = { λ r. record { place = r.place; bytes = r.bytes.now } };

    ghost invariant = { λ r. r.place + length r.bytes.now < 2 ^ 32 };
}

/// The text that the bytes are in UTF-8.
#[tactic(auto, using(crate::proofs::Texts::is_text, crate::proofs::Texts::not_utf8))]
fn utf8(bytes: &[u8]) -> Option<&str>
    ensures { MatchOption result (is_utf8 bytes.now ≡ false) (λ text. (is_utf8 bytes.now ≡ true) × (text.now ≡ bytes.now)) }
{
    match std::str::from_utf8(bytes) {
        Ok(text) => Some(text),
        Err(_) => None,
    }
}

impl<'a> Reader<'a> {
    /// A reader of the outermost input.
    pub fn new(bytes: &'a [u8]) -> Reader<'a>
        requires { length bytes.now < 2 ^ 32 }
        ensures { result ≡ record { place = 0; bytes = bytes.now } }
    {
        Reader { bytes, place: 0 }
    }

    /// Another reader of what is left.
    pub fn again(&self) -> Reader<'a>
        ensures { result ≡ self.now }
    {
        Reader {
            bytes: self.bytes,
            place: self.place,
        }
    }

    /// The next tag byte.
    pub fn peek(&self) -> Option<u8>
        ensures { result ≡ slice_get self.now.bytes 0 }
    {
        self.bytes.first().copied()
    }

    /// The content of the next element, which has this tag, and what is behind it.
    #[tactic(auto, unfolding(crate::specs::Elements::element_at))]
    fn element(&self, tag: u8) -> Result<(Reader<'a>, Reader<'a>), DerRefusal>
        ensures { result ≡ element_at tag self.now }
    {
        let place = self.place as usize;
        let Some((first, after)) = self.bytes.split_first() else {
            return Err(refuse(DerCause::Truncated, place));
        };
        if *first != tag {
            return Err(refuse(DerCause::WrongTag, place));
        }
        let (len, width) = size_at(place + 1, after)?;
        let len = len as usize;
        if after.len() < width + len {
            return Err(refuse(DerCause::Truncated, place + 1 + after.len()));
        }
        let (_, behind) = after.split_at(width);
        let (content, rest) = behind.split_at(len);
        let inside = Reader {
            bytes: content,
            place: (place + 1 + width) as u32,
        };
        let outside = Reader {
            bytes: rest,
            place: (place + 1 + width + len) as u32,
        };
        Ok((inside, outside))
    }

    /// The content of the next element, which has this tag byte.
    pub fn take(&mut self, tag: u8) -> Result<Reader<'a>, DerRefusal>
        ensures { Moves (λ x. x) result self.old self.new (element_at tag self.old) }
    {
        let (content, after) = self.element(tag)?;
        *self = after;
        Ok(content)
    }

    /// The next element, an INTEGER of 1 to 8 bytes.
    pub fn int(&mut self) -> Result<i64, DerRefusal>
        ensures { Moves (λ x. x) result self.old self.new (int.reading self.old) }
    {
        let (content, after) = self.element(2)?;
        let value = integer_in(content.place as usize, content.bytes)?;
        *self = after;
        Ok(value)
    }

    /// The next element, an INTEGER from `low` to `high`. Another one is LengthForm at its content.
    pub fn int_within(&mut self, low: i64, high: i64) -> Result<i64, DerRefusal>
        ensures exact { Moves (λ x. x) result self.old self.new ((int_within low high).reading self.old) }
        ensures value { IfOk result (λ n. (low ≤ℤ n) × (n ≤ℤ high)) }
    {
        let (content, after) = self.element(2)?;
        let value = within_in(low, high, content.place as usize, content.bytes)?;
        *self = after;
        Ok(value)
    }

    /// The first 32 bits of the next element, a BIT STRING; bit 0 is the highest. Missing bits are zero, further ones do not count.
    pub fn bits(&mut self) -> Result<u32, DerRefusal>
        ensures { Moves (λ x. x) result self.old self.new (bits.reading self.old) }
    {
        let (content, after) = self.element(3)?;
        let value = bits_in(content.place as usize, content.bytes)?;
        *self = after;
        Ok(value)
    }

    /// The next element, an OCTET STRING.
    pub fn octets(&mut self) -> Result<&'a [u8], DerRefusal>
        ensures { Moves (λ x. x.now) result self.old self.new (octets.reading self.old) }
    {
        let (content, after) = self.element(4)?;
        *self = after;
        Ok(content.bytes)
    }

    /// The next element, a GeneralString in UTF-8.
    pub fn text(&mut self) -> Result<&'a str, DerRefusal>
        ensures { Moves (λ x. x.now) result self.old self.new (text.reading self.old) }
    {
        let (content, after) = self.element(0x1b)?;
        let Some(text) = utf8(content.bytes) else {
            return Err(content.refusal(DerCause::BadText));
        };
        *self = after;
        Ok(text)
    }

    /// All that is left, a text in UTF-8. Another one is BadText at the next byte.
    pub fn content_text(&self) -> Result<&'a str, DerRefusal>
        ensures { Gives (λ x. x.now) result (texts.reading self.now) }
    {
        let Some(text) = utf8(self.bytes) else {
            return Err(self.refusal(DerCause::BadText));
        };
        Ok(text)
    }

    /// What is left.
    pub fn rest(&self) -> &'a [u8]
        ensures { result.now ≡ self.now.bytes }
    {
        self.bytes
    }

    /// Whether nothing is left.
    pub fn is_empty(&self) -> bool
        ensures { result ≡ nat_eq (length self.now.bytes) 0 }
    {
        self.bytes.is_empty()
    }

    /// Nothing may be left; else Trailing at the next byte.
    pub fn done(&self) -> Result<(), DerRefusal>
        ensures { result ≡ done_at self.now }
    {
        if !self.bytes.is_empty() {
            return Err(self.refusal(DerCause::Trailing));
        }
        Ok(())
    }

    /// A refusal at the next byte, for a content that breaks a rule of its type.
    pub fn refusal(&self, cause: DerCause) -> DerRefusal
        ensures { result ≡ record { cause = cause; place = self.now.place } }
    {
        refuse(cause, self.place as usize)
    }
}
