//! Questions about a PAC's list of buffers, 16 bytes an entry (MS-PAC, section 2.3).

ghost use Rattle.std.specs.Prelude.{◌≡◌, ◌/◌, ◌<◌, ◌^◌, true, false, length, option_map, MatchOption};
ghost use Rattle.std.specs.Option.{option_copied};
ghost use Rattle.std.specs.Simd.{first_chunks};
ghost use Rattle.std.specs.List.{find};
ghost use Rattle.pac_buffers.specs.InfoBuffers.{info_buffer, is_kind, leaves, is_misaligned, meets_list};
ghost use Rattle.pac_buffers.specs.Container.{any_entry, has_kind, first_missing, needed, is_listed, list_of, buffers_fault};

use crate::buffer_type::{CLIENT_INFO, LOGON_INFO, PRIVSVR_CHECKSUM, SERVER_CHECKSUM};
use crate::info_buffer::InfoBuffer;
use crate::kinds::first_twice;
use crate::overlap::two_share_byte;
use crate::refusal::PacRefusal;

/// Whether a buffer leaves the PAC, which has `len` bytes.
pub fn any_leaves(list: &[[u8; 16]], len: usize) -> bool
    ensures { result ≡ any_entry (leaves len) list.now }
{
    list.iter().any(|raw| InfoBuffer::read(raw).leaves(len))
}

/// Whether a buffer does not start at a multiple of 8.
pub fn any_misaligned(list: &[[u8; 16]]) -> bool
    ensures { result ≡ any_entry is_misaligned list.now }
{
    list.iter().any(|raw| InfoBuffer::read(raw).is_misaligned())
}

/// Whether a buffer has a byte among the first `len`, which are the header's and the list's.
pub fn any_meets_list(list: &[[u8; 16]], len: u128) -> bool
    ensures { result ≡ any_entry (meets_list len) list.now }
{
    list.iter().any(|raw| InfoBuffer::read(raw).meets_list(len))
}

/// Whether a buffer of this type is listed.
pub fn has_kind(list: &[[u8; 16]], kind: u32) -> bool
    ensures { result ≡ has_kind kind list.now }
{
    list.iter().any(|raw| InfoBuffer::read(raw).kind == kind)
}

/// The first needed type that is not listed.
pub fn first_missing(list: &[[u8; 16]]) -> Option<u32>
    ensures { result ≡ first_missing needed list.now }
{
    if !has_kind(list, LOGON_INFO) {
        Some(LOGON_INFO)
    } else if !has_kind(list, SERVER_CHECKSUM) {
        Some(SERVER_CHECKSUM)
    } else if !has_kind(list, PRIVSVR_CHECKSUM) {
        Some(PRIVSVR_CHECKSUM)
    } else if !has_kind(list, CLIENT_INFO) {
        Some(CLIENT_INFO)
    } else {
        None
    }
}

fn raw_entry(list: &[[u8; 16]], kind: u32) -> Option<&[u8; 16]>
    ensures { option_copied result ≡ find (λ raw. is_kind kind (info_buffer raw)) list.now }
{
    list.iter().find(|raw| InfoBuffer::read(raw).kind == kind)
}

/// The entry of a type.
pub fn entry(list: &[[u8; 16]], kind: u32) -> Option<InfoBuffer>
    ensures { result ≡ option_map info_buffer (find (λ raw. is_kind kind (info_buffer raw)) list.now) }
{
    match raw_entry(list, kind) {
        Some(raw) => Some(InfoBuffer::read(raw)),
        None => None,
    }
}

fn chunks(bytes: &[u8]) -> &[[u8; 16]]
    ensures { result.now ≡ first_chunks 16 (length bytes.now / 16) bytes.now }
{
    let (chunks, _) = bytes.as_chunks::<16>();
    chunks
}

/// The list, where the header and the list lie in the bytes.
pub fn list_in(bytes: &[u8]) -> Option<&[[u8; 16]]>
    ensures { MatchOption result (is_listed bytes.now ≡ false) (λ list. (is_listed bytes.now ≡ true) × (list.now ≡ list_of bytes.now)) }
{
    if bytes.len() < 8 {
        return None;
    }
    let count = u32::from_le_bytes([bytes[0], bytes[1], bytes[2], bytes[3]]) as usize;
    let (_, rest) = bytes.split_at(8);
    let entries = chunks(rest);
    if entries.len() < count {
        return None;
    }
    Some(&entries[..count])
}

/// What is wrong with the list of a PAC that has `len` bytes.
pub fn fault(list: &[[u8; 16]], len: usize) -> Option<PacRefusal>
    requires { len < 2 ^ 32 }
    ensures { result ≡ buffers_fault len list.now }
{
    if any_leaves(list, len) {
        return Some(PacRefusal::Truncated);
    }
    if any_misaligned(list) {
        return Some(PacRefusal::Misaligned);
    }
    if any_meets_list(list, 8 + 16 * list.len() as u128) || two_share_byte(list, len) {
        return Some(PacRefusal::Overlap);
    }
    if let Some(kind) = first_twice(list) {
        return Some(PacRefusal::Twice(kind));
    }
    match first_missing(list) {
        Some(kind) => Some(PacRefusal::Missing(kind)),
        None => None,
    }
}
