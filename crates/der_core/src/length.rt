//! Length octets (X.690, sections 8.1.3 and 10.1).
ghost use Rattle.std.specs.Prelude.{◌≡◌, ◌<◌, ◌+◌, ◌≤◌, ◌^◌, length, IfOk};
ghost use Rattle.std.specs.Int.{w32, from_be_bytes};
ghost use Rattle.der_core.specs.Sizes.{number_of, width_of, size_at};

use crate::refusal::{DerCause, DerRefusal, refuse};

/// How many bytes the number needs, 1 to 4.
pub fn width_of(n: u32) -> usize
    ensures { result ≡ width_of n }
{
    if n < 256 {
        1
    } else if n < 65536 {
        2
    } else if n < 16_777_216 {
        3
    } else {
        4
    }
}

/// Up to four bytes as a number, the first byte the highest.
fn number_of(bytes: &[u8]) -> u32
    requires { length bytes.now ≤ 4 }
    ensures { result ≡ number_of bytes.now }
{
    match bytes {
        [] => 0,
        [a] => u32::from_be_bytes([0, 0, 0, *a]),
        [a, b] => u32::from_be_bytes([0, 0, *a, *b]),
        [a, b, c] => u32::from_be_bytes([0, *a, *b, *c]),
        [a, b, c, d] => u32::from_be_bytes([*a, *b, *c, *d]),
        _ => unreachable!(),
    }
}

/// The length at the front of the bytes, which begin at `place`, and of how many bytes it is.
#[tactic(auto, unfolding(crate::specs::Sizes::size_at))]
pub fn size_at(place: usize, bytes: &[u8]) -> Result<(u32, usize), DerRefusal>
    requires { place + length bytes.now < 2 ^ 32 }
    ensures exact { result ≡ size_at place bytes.now }
    ensures within { IfOk result (λ x. x.1 ≤ length bytes.now) }
{
    let Some((first, rest)) = bytes.split_first() else {
        return Err(refuse(DerCause::Truncated, place));
    };
    let b = *first as usize;
    if b < 128 {
        return Ok((b as u32, 1));
    }
    if b == 128 || 132 < b {
        return Err(refuse(DerCause::LengthForm, place));
    }
    let k = b - 128;
    if rest.len() < k {
        return Err(refuse(DerCause::Truncated, place + 1 + rest.len()));
    }
    let n = number_of(&rest[..k]);
    if n < 128 || width_of(n) != k {
        return Err(refuse(DerCause::NotMinimal, place));
    }
    Ok((n, k + 1))
}
