//! A reader of one serialized structure, or of bytes without a header.

ghost use Rattle.std.specs.Prelude.{◌≡◌, ◌<◌, ◌+◌, ◌-◌, ◌≤◌, ◌%◌, ◌^◌, length, nat_eq, IfOk};
ghost use Rattle.std.specs.Int.{w8, w16, w32};
ghost use Rattle.ndr_core.specs.Place.{start_of};
ghost use Rattle.ndr_core.specs.Layout.{such};
ghost use Rattle.ndr_core.specs.Fields.{gap, bytes_at, aligned_at, raw, number, within, exactly, pointer, pointer_to};
ghost use Rattle.ndr_core.specs.Arrays.{count, units, is_actual};
ghost use Rattle.ndr_core.specs.Object.{header, top, object_of, opened, ended, exhausted};
ghost use Rattle.ndr_core.specs.Gives.{Answers, Reads, Moves};

use crate::refusal::{NdrCause, NdrRefusal};
use std::marker::Model;

/// Reads the fields of one structure from left to right. A call that refuses changes nothing.
#[derive(Drop)]
pub struct NdrReader<'a> {
    bytes: &'a [u8],
    place: u32,
    behind: usize,
}

impl<'a> Model for NdrReader<'a> {
    ghost use Rattle.std.specs.Prelude.{◌<◌, ◌+◌, ◌^◌, length};
    ghost use Rattle.ndr_core.specs.Place.{At};

    ghost Value = { At };

    ghost view = { λ r. record { place = r.place; bytes = r.bytes.now; behind = r.behind } };

    ghost invariant = { λ r. r.place + length r.bytes.now < 2 ^ 32 };
}

fn refuse(cause: NdrCause, place: usize) -> NdrRefusal
    requires { place < 2 ^ 32 }
    ensures { result ≡ record { cause = cause; place = place } }
{
    NdrRefusal {
        cause,
        place: place as u32,
    }
}

/// How far the next multiple of the width is.
#[tactic(auto, unfolding(crate::specs::Fields::gap))]
pub(crate) fn gap(width: usize, place: usize) -> usize
    requires { 0 < width }
    ensures exact { result ≡ gap width place }
    ensures within { result < width }
{
    (width - place % width) % width
}

impl<'a> NdrReader<'a> {
    /// A reader of the structure that the bytes are, behind its header and the pointer to it.
    #[tactic(auto, unfolding(crate::specs::Object::opened))]
    pub fn new(bytes: &'a [u8]) -> Result<NdrReader<'a>, NdrRefusal>
        requires { length bytes.now < 2 ^ 32 }
        ensures exact { Answers (λ r. r) result (opened bytes.now) }
    {
        let (len, behind) = NdrReader::packed(bytes).header()?;
        let (_, structure) = behind.object(len)?.top()?;
        Ok(structure)
    }

    /// A reader of bytes that have no header.
    pub fn packed(bytes: &'a [u8]) -> NdrReader<'a>
        requires { length bytes.now < 2 ^ 32 }
        ensures value { result ≡ start_of bytes.now }
    {
        NdrReader {
            bytes,
            place: 0,
            behind: 0,
        }
    }

    /// The object that is `len` bytes long, and what follows it.
    #[tactic(auto, unfolding(crate::specs::Object::object_of))]
    fn object(&self, len: u32) -> Result<NdrReader<'a>, NdrRefusal>
        ensures { Answers (λ r. r) result (object_of len self.now) }
    {
        let len = len as usize;
        if self.bytes.len() < len {
            return Err(self.truncated());
        }
        let (bytes, rest) = self.bytes.split_at(len);
        Ok(NdrReader {
            bytes,
            place: self.place,
            behind: rest.len(),
        })
    }

    fn truncated(&self) -> NdrRefusal
        ensures { result ≡ record { cause = NdrCause.Truncated; place = self.now.place + length self.now.bytes } }
    {
        refuse(NdrCause::Truncated, self.place as usize + self.bytes.len())
    }

    /// The next `n` bytes, and what is behind them.
    #[tactic(auto, unfolding(crate::specs::Fields::bytes_at))]
    fn front(&self, n: usize) -> Result<(&'a [u8], NdrReader<'a>), NdrRefusal>
        ensures exact { Answers (λ x. (x.0.now, x.1)) result (bytes_at n self.now) }
        ensures sized { IfOk result (λ x. length x.0.now ≡ n) }
    {
        if self.bytes.len() < n {
            return Err(self.truncated());
        }
        let (front, rest) = self.bytes.split_at(n);
        let after = NdrReader {
            bytes: rest,
            place: self.place + n as u32,
            behind: self.behind,
        };
        Ok((front, after))
    }

    /// The next aligned bytes, and what is behind them.
    #[tactic(auto, unfolding(crate::specs::Fields::aligned_at))]
    fn aligned(&self, width: usize) -> Result<(&'a [u8], NdrReader<'a>), NdrRefusal>
        requires some { 0 < width }
        requires few { width ≤ 8 }
        ensures exact { Answers (λ x. (x.0.now, x.1)) result (aligned_at width self.now) }
        ensures sized { IfOk result (λ x. length x.0.now ≡ width) }
    {
        let skipped = gap(width, self.place as usize);
        let (bytes, after) = self.front(skipped + width)?;
        Ok((&bytes[skipped..], after))
    }

    /// A refusal at the first byte of the field of this width that ends here.
    fn refusal(&self, cause: NdrCause, width: u32) -> NdrRefusal
        ensures { result ≡ record { cause = cause; place = self.now.place - width } }
    {
        NdrRefusal {
            cause,
            place: self.place.saturating_sub(width),
        }
    }

    fn number8(&self) -> Result<(u8, NdrReader<'a>), NdrRefusal>
        ensures { Answers (λ x. x) result ((number w8).reading self.now) }
    {
        let (bytes, after) = self.aligned(1)?;
        Ok((bytes[0], after))
    }

    fn number16(&self) -> Result<(u16, NdrReader<'a>), NdrRefusal>
        ensures { Answers (λ x. x) result ((number w16).reading self.now) }
    {
        let (bytes, after) = self.aligned(2)?;
        Ok((u16::from_le_bytes([bytes[0], bytes[1]]), after))
    }

    fn number32(&self) -> Result<(u32, NdrReader<'a>), NdrRefusal>
        ensures { Answers (λ x. x) result ((number w32).reading self.now) }
    {
        let (bytes, after) = self.aligned(4)?;
        let value = u32::from_le_bytes([bytes[0], bytes[1], bytes[2], bytes[3]]);
        Ok((value, after))
    }

    fn exactly8(&self, value: u8, cause: NdrCause) -> Result<(u8, NdrReader<'a>), NdrRefusal>
        ensures { Answers (λ x. x) result ((exactly w8 value cause).reading self.now) }
    {
        let (n, after) = self.number8()?;
        if value != n {
            return Err(after.refusal(cause, 1));
        }
        Ok((n, after))
    }

    fn exactly32(&self, value: u32, cause: NdrCause) -> Result<(u32, NdrReader<'a>), NdrRefusal>
        ensures { Answers (λ x. x) result ((exactly w32 value cause).reading self.now) }
    {
        let (n, after) = self.number32()?;
        if value != n {
            return Err(after.refusal(cause, 4));
        }
        Ok((n, after))
    }

    fn within32(
        &self,
        low: u32,
        high: u32,
        cause: NdrCause,
    ) -> Result<(u32, NdrReader<'a>), NdrRefusal>
        ensures exact { Answers (λ x. x) result ((within w32 low high cause).reading self.now) }
        ensures within { IfOk result (λ x. (low ≤ x.0) × (x.0 ≤ high)) }
    {
        let (n, after) = self.number32()?;
        if low <= n && n <= high {
            return Ok((n, after));
        }
        Err(after.refusal(cause, 4))
    }

    fn within8(&self, low: u8, high: u8, cause: NdrCause) -> Result<(u8, NdrReader<'a>), NdrRefusal>
        ensures exact { Answers (λ x. x) result ((within w8 low high cause).reading self.now) }
        ensures within { IfOk result (λ x. (low ≤ x.0) × (x.0 ≤ high)) }
    {
        let (n, after) = self.number8()?;
        if low <= n && n <= high {
            return Ok((n, after));
        }
        Err(after.refusal(cause, 1))
    }

    /// The second byte of the header's length, whose fault stands at the first.
    fn high_byte(&self) -> Result<(u8, NdrReader<'a>), NdrRefusal>
        ensures { Answers (λ x. x) result ((such w16 (nat_eq 0) NdrCause.BadHeader (number w8)).reading self.now) }
    {
        let (n, after) = self.number8()?;
        if 0 != n {
            return Err(after.refusal(NdrCause::BadHeader, 2));
        }
        Ok((n, after))
    }

    fn object_length(&self) -> Result<(u32, NdrReader<'a>), NdrRefusal>
        ensures { Answers (λ x. x) result ((such w32 (λ n. nat_eq (n % 8) 0) NdrCause.BadHeader (number w32)).reading self.now) }
    {
        let (n, after) = self.number32()?;
        if n % 8 != 0 {
            return Err(after.refusal(NdrCause::BadHeader, 4));
        }
        Ok((n, after))
    }

    /// The header, which gives the object's length.
    fn header(&self) -> Result<(u32, NdrReader<'a>), NdrRefusal>
        ensures { Answers (λ x. x) result (header.reading self.now) }
    {
        let (_, after) = self.exactly8(1, NdrCause::BadHeader)?;
        let (_, after) = after.exactly8(0x10, NdrCause::BadHeader)?;
        let (_, after) = after.exactly8(8, NdrCause::BadHeader)?;
        let (_, after) = after.high_byte()?;
        let (_, after) = after.front(4)?;
        let (len, after) = after.object_length()?;
        let (_, after) = after.number32()?;
        Ok((len, after))
    }

    fn referent(&self) -> Result<(bool, NdrReader<'a>), NdrRefusal>
        ensures { Answers (λ x. x) result (pointer.reading self.now) }
    {
        let (n, after) = self.number32()?;
        Ok((n != 0, after))
    }

    /// The pointer to the structure.
    fn top(&self) -> Result<(bool, NdrReader<'a>), NdrRefusal>
        ensures { Answers (λ x. x) result (top.reading self.now) }
    {
        let (there, after) = self.referent()?;
        if !there {
            return Err(after.refusal(NdrCause::BadHeader, 4));
        }
        Ok((there, after))
    }

    /// The next number of two bytes.
    pub fn u16(&mut self) -> Result<u16, NdrRefusal>
        ensures exact { Moves (λ n. n) result self.old self.new ((number w16).reading self.old) }
    {
        let (value, after) = self.number16()?;
        *self = after;
        Ok(value)
    }

    /// The next number of four bytes.
    pub fn u32(&mut self) -> Result<u32, NdrRefusal>
        ensures exact { Moves (λ n. n) result self.old self.new ((number w32).reading self.old) }
    {
        let (value, after) = self.number32()?;
        *self = after;
        Ok(value)
    }

    /// The next number of four bytes, from `low` to `high`; another one is refused with `cause`.
    pub fn u32_within(&mut self, low: u32, high: u32, cause: NdrCause) -> Result<u32, NdrRefusal>
        ensures exact { Moves (λ n. n) result self.old self.new ((within w32 low high cause).reading self.old) }
        ensures within { IfOk result (λ n. (low ≤ n) × (n ≤ high)) }
    {
        let (value, after) = self.within32(low, high, cause)?;
        *self = after;
        Ok(value)
    }

    /// The next byte, which is this one; another one is refused with `cause`.
    pub fn u8_exactly(&mut self, value: u8, cause: NdrCause) -> Result<(), NdrRefusal>
        ensures exact { Moves (λ _. value) result self.old self.new ((exactly w8 value cause).reading self.old) }
    {
        let (_, after) = self.exactly8(value, cause)?;
        *self = after;
        Ok(())
    }

    /// The next byte, from `low` to `high`; another one is refused with `cause`.
    pub fn u8_within(&mut self, low: u8, high: u8, cause: NdrCause) -> Result<u8, NdrRefusal>
        ensures exact { Moves (λ n. n) result self.old self.new ((within w8 low high cause).reading self.old) }
        ensures within { IfOk result (λ n. (low ≤ n) × (n ≤ high)) }
    {
        let (value, after) = self.within8(low, high, cause)?;
        *self = after;
        Ok(value)
    }

    /// The next pointer, and whether it points to something.
    pub fn pointer(&mut self) -> Result<bool, NdrRefusal>
        ensures exact { Moves (λ b. b) result self.old self.new (pointer.reading self.old) }
    {
        let (there, after) = self.referent()?;
        *self = after;
        Ok(there)
    }

    /// The next pointer, which may be null only where `said`, the length or count beside it, is 0.
    pub fn pointer_to(&mut self, said: u32) -> Result<bool, NdrRefusal>
        ensures exact { Moves (λ b. b) result self.old self.new ((pointer_to said).reading self.old) }
    {
        let (there, after) = self.referent()?;
        if !there && said != 0 {
            return Err(after.refusal(NdrCause::BadCount, 4));
        }
        *self = after;
        Ok(there)
    }

    /// The next `n` bytes.
    pub fn raw(&mut self, n: usize) -> Result<&'a [u8], NdrRefusal>
        ensures exact { Moves (λ x. x.now) result self.old self.new ((raw n).reading self.old) }
        ensures sized { IfOk result (λ x. length x.now ≡ n) }
    {
        let (bytes, after) = self.front(n)?;
        *self = after;
        Ok(bytes)
    }

    fn actual(&self, length: u16, maximum: u32) -> Result<(u32, NdrReader<'a>), NdrRefusal>
        ensures { Answers (λ x. x) result ((such w32 (is_actual length maximum) NdrCause.BadCount (number w32)).reading self.now) }
    {
        let (n, after) = self.number32()?;
        if n <= maximum && length as u64 == 2 * n as u64 {
            return Ok((n, after));
        }
        Err(after.refusal(NdrCause::BadCount, 4))
    }

    fn string(&self, length: u16) -> Result<(&'a [u8], NdrReader<'a>), NdrRefusal>
        ensures { Answers (λ x. (x.0.now, x.1)) result ((units length).reading self.now) }
    {
        let (maximum, after) = self.number32()?;
        let (_, after) = after.exactly32(0, NdrCause::BadCount)?;
        let (n, after) = after.actual(length, maximum)?;
        after.front(2 * n as usize)
    }

    /// The units of a string of this length in bytes, behind its three counts.
    pub fn units(&mut self, length: u16) -> Result<&'a [u8], NdrRefusal>
        ensures exact { Moves (λ x. x.now) result self.old self.new ((units length).reading self.old) }
    {
        let (units, after) = self.string(length)?;
        *self = after;
        Ok(units)
    }

    /// The count of an array, which is the said one and at most 1,024.
    pub fn count(&mut self, said: u32) -> Result<(), NdrRefusal>
        ensures exact { Moves (λ _. said) result self.old self.new ((count said).reading self.old) }
    {
        let (n, after) = self.exactly32(said, NdrCause::BadCount)?;
        if 1024 < n {
            return Err(after.refusal(NdrCause::TooMany, 4));
        }
        *self = after;
        Ok(())
    }

    /// Nothing but padding may be left.
    pub fn done(&self) -> Result<(), NdrRefusal>
        ensures exact { Answers (λ x. x) result (ended self.now) }
    {
        if 7 < self.bytes.len() || 0 < self.behind {
            return Err(refuse(NdrCause::Trailing, self.place as usize));
        }
        Ok(())
    }

    /// Nothing may be left, as in bytes without a header.
    pub fn exhausted(&self) -> Result<(), NdrRefusal>
        ensures exact { Answers (λ x. x) result (exhausted self.now) }
    {
        if !self.bytes.is_empty() {
            return Err(refuse(NdrCause::Trailing, self.place as usize));
        }
        Ok(())
    }
}
