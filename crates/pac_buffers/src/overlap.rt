//! Whether buffers share bytes. Buffers that start at multiples of 8 share a byte exactly where they share one whose
//! place is a multiple of 8, so one mark for 8 bytes finds it, in one pass over the list for 131,072 bytes. Of a few buffers
//! each is compared with each.

ghost use Rattle.std.specs.Prelude.{◌≡◌, ℕ, ◌+◌, ◌*◌, ◌%◌, ◌^◌, ◌<◌, ◌≤◌, ◌&&◌, ◌||◌, [], true, false, length, replicate, nat_le, nat_lt, slice_index_or};
ghost use Rattle.std.specs.Bool.{OnTrue, OnFalse};
ghost use Rattle.pac_buffers.specs.InfoBuffers.{end_of, is_misaligned, leaves, share_byte};
ghost use Rattle.pac_buffers.specs.Container.{any_entry, overlap};
ghost use Rattle.pac_buffers.specs.SharedBytes.{is_shared};

use crate::info_buffer::InfoBuffer;

/// How many buffers are compared each with each at most: a PAC has fewer, and the marks cost more than that.
const FEW: usize = 32;

/// How many marks there are.
const MARKS: usize = 16_384;

/// How many bytes they stand for.
const WINDOW: usize = 8 * MARKS;

/// How many of `count` marks, one for 8 bytes from `start` on, stand before this place.
fn marks_before(place: u128, start: usize, count: usize) -> usize
    requires { place < 2 ^ 65 }
    ensures within { result ≤ count }
    ensures exact { (k : ℕ) → k < count → nat_lt k result ≡ nat_lt (start + 8 * k) place }
{
    let marks = (place.saturating_sub(start as u128) + 7) / 8;
    if marks < count as u128 {
        marks as usize
    } else {
        count
    }
}

/// No mark is set.
fn no_marks() -> [bool; MARKS]
    ensures { result ≡ replicate 16384 false }
{
    [false; MARKS]
}

/// Sets these marks. False where one was set before.
fn set_marks(marks: &mut [bool], from: usize, to: usize) -> bool
    requires { to ≤ length marks.old }
    ensures shared { OnFalse result ((k : ℕ) × (from ≤ k) × (k < to) × (slice_index_or marks.old k false ≡ true)) }
    ensures apart { OnTrue result ((k : ℕ) → from ≤ k → k < to → slice_index_or marks.old k false ≡ false) }
    ensures set { OnTrue result ((k : ℕ) → k < length marks.old → slice_index_or marks.new k false ≡ (slice_index_or marks.old k false || (nat_le from k && nat_lt k to))) }
{
    for k in from..to {
        if marks[k] {
            return false;
        }
        marks[k] = true;
    }
    true
}

/// Whether two buffers have a byte in common whose place is one that a mark stands for, from `start` on.
fn two_share_from(list: &[[u8; 16]], start: usize) -> bool
    ensures shared { OnTrue result (overlap [] list.now ≡ true) }
    ensures apart { OnFalse result ((k : ℕ) → k < MARKS → is_shared (start + 8 * k) [] list.now ≡ false) }
{
    let mut marks = no_marks();
    for raw in list {
        let buffer = InfoBuffer::read(raw);
        let from = marks_before(buffer.offset as u128, start, MARKS);
        let to = marks_before(buffer.end(), start, MARKS);
        if !set_marks(&mut marks, from, to) {
            return true;
        }
    }
    false
}

fn any_shares_byte(list: &[[u8; 16]], buffer: InfoBuffer) -> bool
    ensures { result ≡ any_entry (share_byte buffer) list.now }
{
    list.iter()
        .any(|raw| buffer.shares_byte(InfoBuffer::read(raw)))
}

/// Whether two buffers have a byte in common, by comparing each with each.
fn any_pair_shares_byte(list: &[[u8; 16]]) -> bool
    ensures { result ≡ overlap [] list.now }
{
    for i in 0..list.len() {
        let buffer = InfoBuffer::read(&list[i]);
        if any_shares_byte(&list[..i], buffer) {
            return true;
        }
    }
    false
}

/// Whether two buffers have a byte in common whose place is one that some window's marks stand for.
fn two_share_in_windows(list: &[[u8; 16]], len: usize) -> bool
    requires short { len < 2 ^ 32 }
    requires within { any_entry (leaves len) list.now ≡ false }
    requires aligned { any_entry is_misaligned list.now ≡ false }
    ensures { result ≡ overlap [] list.now }
{
    for window in 0..len / WINDOW + 1 {
        if two_share_from(list, window * WINDOW) {
            return true;
        }
    }
    false
}

/// Whether two buffers have a byte in common.
pub fn two_share_byte(list: &[[u8; 16]], len: usize) -> bool
    requires short { len < 2 ^ 32 }
    requires within { any_entry (leaves len) list.now ≡ false }
    requires aligned { any_entry is_misaligned list.now ≡ false }
    ensures { result ≡ overlap [] list.now }
{
    if list.len() <= FEW {
        any_pair_shares_byte(list)
    } else {
        two_share_in_windows(list, len)
    }
}
