//! The value of a signature: where it lies, and whether it is the right one.

ghost use Rattle.std.specs.Prelude.{◌≡◌, ◌≤◌, length, option_map};
ghost use Rattle.std.specs.Option.{option_copied, ForSome};
ghost use Rattle.pac_sign.specs.Sums.{sum_type, value_place};
ghost use Rattle.pac_sign.specs.Verified.{value_for};

use krb_names::{Etype, Key};
use std::ops::Range;

/// The key usage of a PAC's signatures.
pub const USAGE: u32 = 17;

/// The type of a key's checksums.
fn sum_type(etype: Etype) -> u32
    ensures { result ≡ sum_type etype }
{
    match etype {
        Etype::Aes128 => 15,
        Etype::Aes256 => 16,
    }
}

/// Where the value lies in a signature's buffer.
pub fn value_place(place: Option<Range<usize>>, len: usize) -> Range<usize>
    requires { ForSome place (λ p. (p.start ≤ p.end) × (p.end ≤ len)) }
    ensures value { result ≡ value_place place }
    ensures within { (result.start ≤ result.end) × (result.end ≤ len) }
{
    match place {
        None => 0..0,
        Some(Range { start, end }) => {
            if end - start < 4 {
                end..end
            } else if end - start < 16 {
                start + 4..end
            } else {
                start + 4..start + 16
            }
        }
    }
}

/// The value in a signature's buffer, where it is whole and of the key's type.
pub fn value_for<'a>(key: &Key, content: Option<&'a [u8]>) -> Option<&'a [u8]>
    ensures { option_copied result ≡ value_for key.now (option_copied content.entry) }
{
    let content = content?;
    if content.len() < 16 {
        return None;
    }
    let kind = u32::from_le_bytes([content[0], content[1], content[2], content[3]]);
    if kind != sum_type(key.etype) {
        return None;
    }
    Some(&content[4..16])
}
