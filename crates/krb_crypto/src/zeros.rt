//! The checksum of a text with the bytes of two ranges read as zero.

ghost use Rattle.std.specs.Prelude.{◌≡◌, ◌↔◌, IsTrue, ℕ, ◌≤◌, ◌<◌, ◌+◌, List, ◌++◌, length, take, drop, slice_index};
ghost use Rattle.sha1.specs.Sha1.{Holds};
ghost use Rattle.krb_crypto.specs.Checksums.{mac, zeroed};

use crate::checksum::{CHECKSUM, shortened};
use crate::hmac::{finish_hmac, start_hmac};
use crate::key_derivation::derive;
use krb_names::Key;
use sha1::Sha1;
use std::ops::Range;

// Whether an index is in a range.
fn is_within(range: &Range<usize>, i: usize) -> bool
    ensures { IsTrue result ↔ ((range.now.start ≤ i) × (i < range.now.end)) }
{
    range.start <= i && i < range.end
}

// The byte at an index, zero in either range.
fn byte_zeroed(text: &[u8], first: &Range<usize>, second: &Range<usize>, i: usize) -> u8
    requires first { (first.now.start ≤ first.now.end) × (first.now.end ≤ length text.now) }
    requires second { (second.now.start ≤ second.now.end) × (second.now.end ≤ length text.now) }
    requires within { i < length text.now }
    ensures { result ≡ slice_index (zeroed second.now.start second.now.end (zeroed first.now.start first.now.end text.now)) i }
{
    if is_within(second, i) {
        return 0;
    }
    if is_within(first, i) {
        return 0;
    }
    text[i]
}

// The bytes of the zeroed text from an index on.
fn zeroed_at(
    text: &[u8],
    first: &Range<usize>,
    second: &Range<usize>,
    at: usize,
    n: usize,
) -> [u8; 64]
    requires first { (first.now.start ≤ first.now.end) × (first.now.end ≤ length text.now) }
    requires second { (second.now.start ≤ second.now.end) × (second.now.end ≤ length text.now) }
    requires within { at + n ≤ length text.now }
    requires few { n ≤ 64 }
    ensures { take n result ≡ take n (drop at (zeroed second.now.start second.now.end (zeroed first.now.start first.now.end text.now))) }
{
    let mut block = [0; 64];
    for k in 0..n {
        let byte = byte_zeroed(text, first, second, at + k);
        block[k] = byte;
    }
    block
}

// Adds the zeroed text to what is hashed.
fn hash_zeroed(inner: &mut Sha1, text: &[u8], first: &Range<usize>, second: &Range<usize>)
    requires first { (first.now.start ≤ first.now.end) × (first.now.end ≤ length text.now) }
    requires second { (second.now.start ≤ second.now.end) × (second.now.end ≤ length text.now) }
    ensures { (m : List ℕ) → Holds inner.old m
        → Holds inner.new (m ++ zeroed second.now.start second.now.end (zeroed first.now.start first.now.end text.now)) }
{
    let mut at = 0;
    'pieces: while at < text.len() {
        let n = (text.len() - at).min(64);
        let block = zeroed_at(text, first, second, at, n);
        inner.update(&block[..n]);
        at += n;
    }
}

/// The checksum of a text with the bytes of two ranges zero.
pub fn mac_zeroed(
    key: &Key,
    usage: u32,
    text: &[u8],
    first: Range<usize>,
    second: Range<usize>,
) -> [u8; 12]
    requires first { (first.start ≤ first.end) × (first.end ≤ length text.now) }
    requires second { (second.start ≤ second.end) × (second.end ≤ length text.now) }
    ensures { result ≡ mac key.now usage (zeroed second.start second.end (zeroed first.start first.end text.now)) }
{
    let key = derive(key, usage, CHECKSUM);
    let mut inner = start_hmac(key.bytes());
    hash_zeroed(&mut inner, text, &first, &second);
    shortened(&finish_hmac(key.bytes(), inner))
}
