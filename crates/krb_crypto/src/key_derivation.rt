//! Key derivation (RFC 3961, section 5.1).

ghost use Rattle.std.specs.Prelude.{◌≡◌, ◌≤◌, ◌<◌, ◌++◌, length};
ghost use Rattle.krb_names.specs.Keys.{key_of};
ghost use Rattle.krb_crypto.specs.BlockCipher.{IsKey};
ghost use Rattle.krb_crypto.specs.Derivation.{dk, derived};

use crate::block::schedule_of;
use crate::n_fold::nfold;
use aes_core::encrypt_block;
use krb_names::{Etype, Key};

/// The key of a usage. `tail` tells its purpose: aa to encrypt, 55 for the integrity of what is
/// encrypted, 99 for checksums.
pub fn derive(base: &Key, usage: u32, tail: u8) -> Key
    ensures value { result ≡ derived base.now usage tail }
    ensures padded { IsKey result }
{
    let mut constant = [tail; 5];
    constant[..4].copy_from_slice(&usage.to_be_bytes());
    derive_by(base, &constant)
}

/// The key that a constant of 1 to 64 bytes gives.
pub fn derive_by(base: &Key, constant: &[u8]) -> Key
    requires some { 0 < length constant.now }
    requires few { length constant.now ≤ 64 }
    ensures value { result ≡ dk base.now constant.now }
    ensures padded { IsKey result }
{
    let schedule = schedule_of(base);
    let mut first = [0; 16];
    nfold(constant, &mut first);
    encrypt_block(&schedule, &mut first);
    match base.etype {
        Etype::Aes128 => short_key(&first),
        Etype::Aes256 => {
            let mut second = first;
            encrypt_block(&schedule, &mut second);
            long_key(&first, &second)
        }
    }
}

// The two halves of a key of 256 bits.
fn joined(first: &[u8; 16], second: &[u8; 16]) -> [u8; 32]
    ensures { result ≡ first.now ++ second.now }
{
    let mut raw = [0; 32];
    raw[..16].copy_from_slice(first);
    raw[16..].copy_from_slice(second);
    raw
}

// The key of 128 bits of this block.
fn short_key(block: &[u8; 16]) -> Key
    ensures value { result ≡ key_of Etype.Aes128 block.now }
    ensures padded { IsKey result }
{
    Key::new(Etype::Aes128, block)
}

// The key of 256 bits of these blocks.
fn long_key(first: &[u8; 16], second: &[u8; 16]) -> Key
    ensures value { result ≡ key_of Etype.Aes256 (first.now ++ second.now) }
    ensures padded { IsKey result }
{
    Key::new(Etype::Aes256, &joined(first, second))
}
