//! The checksums of the AES types (RFC 3961, section 5.4; RFC 3962, section 6).

ghost use Rattle.std.specs.Prelude.{◌≡◌, ◌↔◌, IsTrue, take};
ghost use Rattle.kdc_prelude.specs.Texts.{same_text};
ghost use Rattle.krb_crypto.specs.Checksums.{mac};
ghost use Rattle.krb_crypto.specs.Encryption.{short_hmac};

use crate::hmac::hmac_sha1;
use crate::key_derivation::derive;
use krb_names::Key;

/// The byte that derives the keys of checksums.
pub(crate) const CHECKSUM: u8 = 0x99;

/// The first 12 bytes of a hash.
pub(crate) fn shortened(hash: &[u8; 20]) -> [u8; 12]
    ensures { result ≡ take 12 hash.now }
{
    let mut sum = [0; 12];
    sum.copy_from_slice(&hash[..12]);
    sum
}

/// The first 12 bytes of the HMAC-SHA1 of a text.
pub(crate) fn short_hmac(key: &Key, text: &[u8]) -> [u8; 12]
    ensures { result ≡ short_hmac key.now text.now }
{
    shortened(&hmac_sha1(key.bytes(), text))
}

/// Whether the shown bytes are this sum. Where there are 12 of them it looks at each, wherever they differ; nothing is
/// claimed of the time that it takes.
pub fn is_same_sum(sum: &[u8; 12], shown: &[u8]) -> bool
    ensures exact { result ≡ same_text shown.now sum.now }
    ensures found { IsTrue result ↔ (shown.now ≡ sum.now) }
{
    if shown.len() != 12 {
        return false;
    }
    let mut same = true;
    for k in 0..12 {
        same = same & (shown[k] == sum[k]);
    }
    same
}

/// The checksum of a text under the key of a usage.
pub fn mac(key: &Key, usage: u32, text: &[u8]) -> [u8; 12]
    ensures { result ≡ mac key.now usage text.now }
{
    short_hmac(&derive(key, usage, CHECKSUM), text)
}

/// Whether these bytes are the checksum of a text.
pub fn mac_ok(key: &Key, usage: u32, text: &[u8], sum: &[u8]) -> bool
    ensures { IsTrue result ↔ (sum.now ≡ mac key.now usage text.now) }
{
    is_same_sum(&mac(key, usage, text), sum)
}
