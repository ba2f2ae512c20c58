//! The checksum of type -138 (RFC 4757, section 4).

ghost use Rattle.std.specs.Prelude.{◌≡◌};
ghost use Rattle.krb_crypto.specs.Checksums.{rc4_mac};

use crate::hmac::hmac_md5;
use md5::{Digest, Md5};

/// The checksum of a text under a key of any length.
pub fn rc4_mac(key: &[u8], usage: u32, text: &[u8]) -> [u8; 16]
    ensures { result ≡ rc4_mac key.now usage text.now }
{
    let signature_key = hmac_md5(key, b"signaturekey\0");
    let mut hash = Md5::new();
    hash.update(&usage.to_le_bytes());
    hash.update(text);
    hmac_md5(&signature_key, &hash.finalize())
}
