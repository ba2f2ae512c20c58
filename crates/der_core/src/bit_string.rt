//! Contents of BIT STRING (X.690, section 8.6), as far as their first 32 bits.
ghost use Rattle.std.specs.Prelude.{◌≡◌, ◌<◌, ◌≤◌, ◌^◌, length};
ghost use Rattle.der_core.specs.BitStrings.{first_four, bits_of, bits_in};

use crate::refusal::{DerCause, DerRefusal, refuse};

/// The first four bytes as a number, zeros for those that are missing.
fn first_four(bytes: &[u8]) -> u32
    ensures { result ≡ first_four bytes.now }
{
    match bytes {
        [] => 0,
        [a] => u32::from_be_bytes([*a, 0, 0, 0]),
        [a, b] => u32::from_be_bytes([*a, *b, 0, 0]),
        [a, b, c] => u32::from_be_bytes([*a, *b, *c, 0]),
        [a, b, c, d, ..] => u32::from_be_bytes([*a, *b, *c, *d]),
    }
}

/// The first 32 bits of the bytes, of which the last `unused` ones do not count. Missing bits are zero.
fn bits_of(unused: u8, bytes: &[u8]) -> u32
    requires { length bytes.now < 2 ^ 32 }
    ensures { result ≡ bits_of unused bytes.now }
{
    let there = (8 * bytes.len()).saturating_sub(unused as usize);
    let missing = 32usize.saturating_sub(there);
    let unit = 1u64 << missing;
    (first_four(bytes) as u64 / unit * unit) as u32
}

/// The first 32 bits of the bit string whose content the bytes are, which begin at `place`.
pub fn bits_in(place: usize, bytes: &[u8]) -> Result<u32, DerRefusal>
    requires at { place < 2 ^ 32 }
    requires short { length bytes.now < 2 ^ 32 }
    ensures { result ≡ bits_in place bytes.now }
{
    match bytes.split_first() {
        Some((unused, bits)) if *unused <= 7 => Ok(bits_of(*unused, bits)),
        _ => Err(refuse(DerCause::LengthForm, place)),
    }
}
