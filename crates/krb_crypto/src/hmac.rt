//! HMAC (RFC 2104) with SHA-1 and with MD5.

ghost use Rattle.std.specs.Prelude.{◌≡◌, ℕ, ◌-◌, ◌≤◌, List, ◌++◌, length, map, replicate, bit_xor};
ghost use Rattle.sha1.specs.Sha1.{Holds, sha1};
ghost use Rattle.md5.specs.Md5.{md5};
ghost use Rattle.krb_crypto.specs.KeyedHash.{pad, hmac_sha1, hmac_md5};

use md5::{Digest, Md5};
use sha1::Sha1;

const INNER: u8 = 0x36;

const OUTER: u8 = 0x5c;

// A key of at most a block, with zeros up to a block.
fn block_of(key: &[u8]) -> [u8; 64]
    requires { length key.now ≤ 64 }
    ensures { result ≡ key.now ++ replicate (64 - length key.now) 0 }
{
    let mut block = [0; 64];
    block[..key.len()].copy_from_slice(key);
    block
}

// Such a key, and each byte of the block added to this one.
fn padded(key: &[u8], byte: u8) -> [u8; 64]
    requires { length key.now ≤ 64 }
    ensures { result ≡ map (λ x. bit_xor x byte) (key.now ++ replicate (64 - length key.now) 0) }
{
    let block = block_of(key);
    let mut sums = [0; 64];
    for k in 0..64 {
        sums[k] = block[k] ^ byte;
    }
    sums
}

fn sha1_pad(key: &[u8], byte: u8) -> [u8; 64]
    ensures { result ≡ pad sha1 byte key.now }
{
    if key.len() > 64 {
        padded(&Sha1::digest(key), byte)
    } else {
        padded(key, byte)
    }
}

fn md5_pad(key: &[u8], byte: u8) -> [u8; 64]
    ensures { result ≡ pad md5 byte key.now }
{
    if key.len() > 64 {
        padded(&Md5::digest(key), byte)
    } else {
        padded(key, byte)
    }
}

/// The inner hash of HMAC-SHA1, before the text.
pub(crate) fn start_hmac(key: &[u8]) -> Sha1
    ensures { Holds result (pad sha1 0x36 key.now) }
{
    let mut inner = Sha1::new();
    inner.update(&sha1_pad(key, INNER));
    inner
}

/// HMAC-SHA1 of the text that the inner hash holds.
pub(crate) fn finish_hmac(key: &[u8], inner: Sha1) -> [u8; 20]
    ensures { (text : List ℕ) → Holds inner (pad sha1 0x36 key.now ++ text) → result ≡ hmac_sha1 key.now text }
{
    let mut outer = Sha1::new();
    outer.update(&sha1_pad(key, OUTER));
    outer.update(&inner.finalize());
    outer.finalize()
}

/// HMAC-SHA1 of a text.
pub fn hmac_sha1(key: &[u8], text: &[u8]) -> [u8; 20]
    ensures { result ≡ hmac_sha1 key.now text.now }
{
    let mut inner = start_hmac(key);
    inner.update(text);
    finish_hmac(key, inner)
}

/// HMAC-MD5 of a text.
pub fn hmac_md5(key: &[u8], text: &[u8]) -> [u8; 16]
    ensures { result ≡ hmac_md5 key.now text.now }
{
    let mut inner = Md5::new();
    inner.update(&md5_pad(key, INNER));
    inner.update(text);
    let mut outer = Md5::new();
    outer.update(&md5_pad(key, OUTER));
    outer.update(&inner.finalize());
    outer.finalize()
}
