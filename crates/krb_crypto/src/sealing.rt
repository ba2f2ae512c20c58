//! Sealing a message and opening it (RFC 3961, section 5.3).

ghost use Rattle.std.specs.Prelude.{◌≡◌, ℕ, ◌+◌, List, length, drop, slice_range, IfOk, IfNone, IfSome};
ghost use Rattle.std.specs.Option.{option_map};
ghost use Rattle.aes_core.specs.Inverses.{AreBytes};
ghost use Rattle.krb_crypto.specs.Encryption.{seal, Opens, opened};

use crate::block::schedule_of;
use crate::checksum::{is_same_sum, short_hmac};
use crate::cts::{cts_encrypt, decrypt_text, encrypt_text};
use crate::key_derivation::derive;
use krb_names::{Bytes, Items, Key};
use std::alloc::{AllocError, Global};
use std::ops::Range;

// The bytes that derive the keys of a usage: to encrypt, and for the integrity of what is encrypted.
const ENCRYPTION: u8 = 0xaa;

const INTEGRITY: u8 = 0x55;

/// Seals a message, after a confounder.
pub fn seal(
    alloc: Global,
    key: &Key,
    usage: u32,
    conf: &[u8; 16],
    plain: &[u8],
) -> Result<Bytes, AllocError>
    ensures { IfOk result (λ bytes. bytes ≡ seal key.now usage conf.now plain.now) }
{
    let mut bytes = Vec::with_capacity(alloc, plain.len() + 28)?;
    bytes.extend_from_slice(conf)?;
    bytes.extend_from_slice(plain)?;
    let sum = short_hmac(&derive(key, usage, INTEGRITY), bytes.as_slice());
    cts_encrypt(&derive(key, usage, ENCRYPTION), bytes.as_mut_slice());
    bytes.extend_from_slice(&sum)?;
    Ok(Items::from_vec(bytes))
}

// The 12 bytes from an index to the end.
fn sum_at(cipher: &[u8], at: usize) -> [u8; 12]
    requires { at + 12 ≡ length cipher.now }
    ensures value { result ≡ drop at cipher.now }
    ensures exact { AreBytes cipher.now }
{
    let mut sum = [0; 12];
    sum.copy_from_slice(&cipher[at..]);
    sum
}

/// Opens what was sealed, in place: the range of the message, or None, where the bytes are no
/// message sealed under this key and usage. They stay as they were then.
pub fn open_in_place(key: &Key, usage: u32, cipher: &mut [u8]) -> Option<Range<usize>>
    ensures found { IfSome result (λ range. Opens key.now usage cipher.old (slice_range cipher.new range.start range.end)) }
    ensures value { IfSome result (λ range. (range.start ≡ 16) × (range.end + 12 ≡ length cipher.old)) }
    ensures exact { option_map (λ range. slice_range cipher.new range.start range.end) result ≡ opened key.now usage cipher.old }
    ensures cause { IfNone result ((message : List ℕ) → ¬ Opens key.now usage cipher.old message) }
    ensures unchanged { IfNone result (cipher.new ≡ cipher.old) }
{
    let encryption_key = derive(key, usage, ENCRYPTION);
    if cipher.len() < 28 {
        return None;
    }
    let end = cipher.len() - 12;
    let shown = sum_at(cipher, end);
    let schedule = schedule_of(&encryption_key);
    decrypt_text(&schedule, &mut cipher[..end]);
    let sum = short_hmac(&derive(key, usage, INTEGRITY), &cipher[..end]);
    if is_same_sum(&sum, &shown) {
        return Some(16..end);
    }
    encrypt_text(&schedule, &mut cipher[..end]);
    None
}
