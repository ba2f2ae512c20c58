//! The key of a password: PBKDF2 (RFC 2898, section 5.2) and RFC 3962, section 4.

ghost use Rattle.std.specs.Prelude.{◌≡◌, ◌≤◌, ◌++◌, take};
ghost use Rattle.aes_core.specs.Aes.{add};
ghost use Rattle.krb_names.specs.Etypes.{key_length};
ghost use Rattle.krb_names.specs.Keys.{key_of};
ghost use Rattle.krb_crypto.specs.Passwords.{pbkdf2_block, pbkdf2, string_to_key};

use crate::hmac::{finish_hmac, hmac_sha1, start_hmac};
use crate::key_derivation::derive_by;
use krb_names::{Etype, Key};

// Block i of PBKDF2's result.
fn pbkdf2_block(password: &[u8], salt: &[u8], rounds: u32, i: u32) -> [u8; 20]
    requires { 1 ≤ rounds }
    ensures { result ≡ pbkdf2_block password.now salt.now rounds i }
{
    let mut inner = start_hmac(password);
    inner.update(salt);
    inner.update(&i.to_be_bytes());
    let mut hash = finish_hmac(password, inner);
    let mut sum = hash;
    'rounds: for _ in 1..rounds {
        let next = hmac_sha1(password, &hash);
        hash = next;
        sum = add_hashes(&sum, &hash);
    }
    sum
}

// The sum of two hashes.
fn add_hashes(a: &[u8; 20], b: &[u8; 20]) -> [u8; 20]
    ensures { result ≡ add a.now b.now }
{
    let mut sum = [0; 20];
    for k in 0..20 {
        sum[k] = a[k] ^ b[k];
    }
    sum
}

// The key that PBKDF2 gives.
fn pbkdf2_key(etype: Etype, password: &[u8], salt: &[u8], rounds: u32) -> Key
    requires { 1 ≤ rounds }
    ensures { result ≡ key_of etype (pbkdf2 password.now salt.now rounds (key_length etype)) }
{
    let first = pbkdf2_block(password, salt, rounds, 1);
    match etype {
        Etype::Aes128 => Key::new(Etype::Aes128, &first[..16]),
        Etype::Aes256 => {
            let second = pbkdf2_block(password, salt, rounds, 2);
            Key::new(Etype::Aes256, &joined(&first, &second))
        }
    }
}

// The first 32 bytes of two blocks.
fn joined(first: &[u8; 20], second: &[u8; 20]) -> [u8; 32]
    ensures { result ≡ take 32 (first.now ++ second.now) }
{
    let mut raw = [0; 32];
    raw[..20].copy_from_slice(first);
    raw[20..].copy_from_slice(&second[..12]);
    raw
}

/// The key of a password, with at least one round.
pub fn string_to_key(etype: Etype, password: &[u8], salt: &[u8], rounds: u32) -> Key
    requires { 1 ≤ rounds }
    ensures { result ≡ string_to_key etype password.now salt.now rounds }
{
    derive_by(&pbkdf2_key(etype, password, salt, rounds), b"kerberos")
}
