//! Contents of INTEGER (X.690, section 8.3) with up to 8 bytes.
ghost use Rattle.std.specs.Prelude.{◌≡◌, ◌<◌, ◌≤◌, ◌^◌, length, IfOk, ◌≤ℤ◌};
ghost use Rattle.std.specs.Int.{w64, to_be_bytes, from_be_bytes, cast_signed, cast_unsigned};
ghost use Rattle.der_core.specs.Integers.{sign_of, is_superfluous, extended, integer_of, integer_in, shortest};
ghost use Rattle.der_core.specs.Forms.{within_in};

use crate::refusal::{DerCause, DerRefusal, refuse};

/// Whether the first byte says no more than the ones after it.
pub fn is_superfluous(b: u8, bytes: &[u8]) -> bool
    ensures { result ≡ is_superfluous b bytes.now }
{
    match bytes {
        [] => false,
        [c, ..] => b == if *c < 128 { 0 } else { 255 },
    }
}

fn sign_of(b: u8) -> u8
    ensures { result ≡ sign_of b }
{
    if b < 128 { 0 } else { 255 }
}

/// One to eight bytes as eight of the same number.
fn extended(bytes: &[u8]) -> [u8; 8]
    requires some { 0 < length bytes.now }
    requires few { length bytes.now ≤ 8 }
    ensures { result ≡ extended bytes.now }
{
    let s = sign_of(bytes[0]);
    match bytes {
        [a] => [s, s, s, s, s, s, s, *a],
        [a, b] => [s, s, s, s, s, s, *a, *b],
        [a, b, c] => [s, s, s, s, s, *a, *b, *c],
        [a, b, c, d] => [s, s, s, s, *a, *b, *c, *d],
        [a, b, c, d, e] => [s, s, s, *a, *b, *c, *d, *e],
        [a, b, c, d, e, f] => [s, s, *a, *b, *c, *d, *e, *f],
        [a, b, c, d, e, f, g] => [s, *a, *b, *c, *d, *e, *f, *g],
        [a, b, c, d, e, f, g, h] => [*a, *b, *c, *d, *e, *f, *g, *h],
        _ => unreachable!(),
    }
}

/// The number of one to eight bytes in two's complement.
fn integer_of(bytes: &[u8]) -> i64
    requires some { 0 < length bytes.now }
    requires few { length bytes.now ≤ 8 }
    ensures { result ≡ integer_of bytes.now }
{
    u64::from_be_bytes(extended(bytes)).cast_signed()
}

/// The integer whose content the bytes are, which begin at `place`.
pub fn integer_in(place: usize, bytes: &[u8]) -> Result<i64, DerRefusal>
    requires { place < 2 ^ 32 }
    ensures { result ≡ integer_in place bytes.now }
{
    let Some((first, rest)) = bytes.split_first() else {
        return Err(refuse(DerCause::LengthForm, place));
    };
    if 7 < rest.len() {
        return Err(refuse(DerCause::LengthForm, place));
    }
    if is_superfluous(*first, rest) {
        return Err(refuse(DerCause::NotMinimal, place));
    }
    Ok(integer_of(bytes))
}

/// The same for an integer from `low` to `high`.
#[tactic(auto, unfolding(crate::specs::Forms::within_in))]
pub fn within_in(low: i64, high: i64, place: usize, bytes: &[u8]) -> Result<i64, DerRefusal>
    requires { place < 2 ^ 32 }
    ensures exact { result ≡ within_in low high place bytes.now }
    ensures within { IfOk result (λ n. (low ≤ℤ n) × (n ≤ℤ high)) }
{
    let value = integer_in(place, bytes)?;
    if low <= value && value <= high {
        return Ok(value);
    }
    Err(refuse(DerCause::LengthForm, place))
}

/// The eight bytes of an integer in two's complement.
pub fn eight(value: i64) -> [u8; 8]
    ensures { result ≡ to_be_bytes w64 (cast_unsigned w64 value) }
{
    value.cast_unsigned().to_be_bytes()
}

/// The bytes without superfluous ones before them.
pub fn shortest(bytes: &[u8]) -> &[u8]
    ensures exact { result.now ≡ shortest bytes.now }
    ensures short { length result.now ≤ length bytes.now }
{
    match bytes {
        [first, rest @ ..] if is_superfluous(*first, rest) => shortest(rest),
        _ => bytes,
    }
}
