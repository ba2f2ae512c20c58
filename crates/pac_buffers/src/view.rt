//! A PAC whose buffers lie in bytes that are lent.

ghost use Rattle.std.specs.Prelude.{◌≡◌, ◌<◌, ◌≤◌, ◌+◌, ◌^◌, length, IfSome, MatchResult, None, Some, option_map};
ghost use Rattle.std.specs.Option.{option_copied};
ghost use Rattle.pac_buffers.specs.InfoBuffers.{end_of};
ghost use Rattle.pac_buffers.specs.Container.{list_of, pac_fault, entry_of, buffer_of};
ghost use Rattle.pac_buffers.specs.Places.{place_of};

use crate::info_buffer::InfoBuffer;
use crate::list::{entry, fault, list_in};
use crate::refusal::PacRefusal;
use std::marker::Model;
use std::ops::Range;

/// A PAC in bytes that are lent. It takes no memory.
#[derive(Drop)]
pub struct PacView<'a> {
    bytes: &'a [u8],
    list: &'a [[u8; 16]],
}

impl<'a> Model for PacView<'a> {
    ghost use Rattle.std.specs.Prelude.{◌≡◌, ◌<◌, ◌^◌, List, ℕ, length, None};
    ghost use Rattle.pac_buffers.specs.Container.{list_of, pac_fault};

    ghost Value = { List ℕ };

    ghost view = { λ v. v.bytes.now };

    ghost invariant = { λ v. record { listed : v.list.now ≡ list_of v.bytes.now; sound : pac_fault v.bytes.now ≡ None; short : length v.bytes.now < 2 ^ 32 } };
}

impl<'a> PacView<'a> {
    /// The PAC that these bytes are.
    ///
    /// # Errors
    /// The first cause of [`PacRefusal`], in the order in which they stand there.
    pub fn read(bytes: &'a [u8]) -> Result<PacView<'a>, PacRefusal>
        requires { length bytes.now < 2 ^ 32 }
        ensures exact { MatchResult result (λ view. (view ≡ bytes.now) × (pac_fault bytes.now ≡ None)) (λ e. pac_fault bytes.now ≡ Some e) }
    {
        let Some(list) = list_in(bytes) else {
            return Err(PacRefusal::Truncated);
        };
        match fault(list, bytes.len()) {
            Some(refusal) => Err(refusal),
            None => Ok(PacView { bytes, list }),
        }
    }

    /// The whole.
    pub fn bytes(&self) -> &'a [u8]
        ensures value { result.now ≡ self.now }
    {
        self.bytes
    }

    fn entry(&self, kind: u32) -> Option<InfoBuffer>
        ensures exact { result ≡ entry_of kind self.now }
        ensures within { IfSome result (λ b. (end_of b ≤ length self.now) × (end_of b < 2 ^ 32)) }
    {
        entry(self.list, kind)
    }

    /// Where the buffer of this type lies.
    pub fn place(&self, kind: u32) -> Option<Range<usize>>
        ensures exact { result ≡ option_map place_of (entry_of kind self.now) }
        ensures within { IfSome result (λ range. (range.start ≤ range.end) × (range.end ≤ length self.now)) }
    {
        let InfoBuffer { size, offset, .. } = self.entry(kind)?;
        let start = offset as usize;
        Some(start..start + size as usize)
    }

    /// The buffer of this type.
    pub fn buffer(&self, kind: u32) -> Option<&'a [u8]>
        ensures exact { option_copied result ≡ buffer_of kind self.now }
    {
        let Range { start, end } = self.place(kind)?;
        Some(&self.bytes[start..end])
    }
}
