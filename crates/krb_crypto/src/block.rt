//! Blocks of 16 bytes and their cipher under a Kerberos key.

ghost use Rattle.std.specs.Prelude.{◌≡◌, ◌≤◌, ◌++◌, ◌+◌, length, take, drop};
ghost use Rattle.aes_core.specs.Aes.{add};
ghost use Rattle.krb_crypto.specs.BlockCipher.{schedule_of};
ghost use Rattle.krb_crypto.specs.CiphertextStealing.{padded};

use aes_core::KeySchedule;
use krb_names::{Etype, Key};

/// The key schedule of a key.
pub fn schedule_of(key: &Key) -> KeySchedule
    ensures { result ≡ schedule_of key.now }
{
    match key.etype {
        Etype::Aes128 => KeySchedule::new(128, &key.raw),
        Etype::Aes256 => KeySchedule::new(256, &key.raw),
    }
}

/// The sum of two blocks.
pub fn add(a: &[u8; 16], b: &[u8; 16]) -> [u8; 16]
    ensures { result ≡ add a.now b.now }
{
    let mut sum = [0; 16];
    for k in 0..16 {
        sum[k] = a[k] ^ b[k];
    }
    sum
}

/// The block at an index of a text.
pub fn block_at(text: &[u8], at: usize) -> [u8; 16]
    requires { at + 16 ≤ length text.now }
    ensures { result ≡ take 16 (drop at text.now) }
{
    let mut block = [0; 16];
    block.copy_from_slice(&text[at..at + 16]);
    block
}

/// At most 16 bytes, with zeros up to a block.
pub fn padded(text: &[u8]) -> [u8; 16]
    requires { length text.now ≤ 16 }
    ensures { result ≡ padded text.now }
{
    let mut block = [0; 16];
    block[..text.len()].copy_from_slice(text);
    block
}
