//! A state as four words, and the rounds on it.

ghost use Rattle.std.specs.Prelude.{◌≡◌, ◌<◌, ◌+◌, ◌*◌, map, [], ◌∷◌, slice_index};
ghost use Rattle.std.specs.Int.{w32, to_le_bytes, byte_at};
ghost use Rattle.aes_core.specs.Field.{sbox, inv_sbox};
ghost use Rattle.aes_core.specs.Aes.{add, times_column, times_columns, mix, inv_mix, inv_shift_rows, full_round, last_round, inv_last_round};
ghost use Rattle.aes_core.specs.StateOf.{state_of, key_at, word_bytes};

use crate::tables::{inv_mixed_share, inv_sub_byte, mixed_share, sub_byte};

// A state by its columns, the first byte of each lowest.
#[derive(Clone, Copy)]
pub struct Columns {
    a: u32,
    b: u32,
    c: u32,
    d: u32,
}

pub fn byte(word: u32, i: u32) -> u8
    requires { i < 4 }
    ensures { result ≡ byte_at i word }
{
    (word >> (8 * i) & 0xff) as u8
}

// A column after the four steps of a round, from the columns that the row shift takes it from.
fn mixed_column(a: u32, b: u32, c: u32, d: u32, key: u32) -> u32
    ensures { to_le_bytes w32 result
        ≡ add (times_column mix (map sbox (byte_at 0 a ∷ byte_at 1 b ∷ byte_at 2 c ∷ byte_at 3 d ∷ []))) (to_le_bytes w32 key) }
{
    mixed_share(0, byte(a, 0))
        ^ mixed_share(1, byte(b, 1))
        ^ mixed_share(2, byte(c, 2))
        ^ mixed_share(3, byte(d, 3))
        ^ key
}

fn last_column(a: u32, b: u32, c: u32, d: u32, key: u32) -> u32
    ensures { to_le_bytes w32 result
        ≡ add (map sbox (byte_at 0 a ∷ byte_at 1 b ∷ byte_at 2 c ∷ byte_at 3 d ∷ [])) (to_le_bytes w32 key) }
{
    u32::from_le_bytes([
        sub_byte(byte(a, 0)),
        sub_byte(byte(b, 1)),
        sub_byte(byte(c, 2)),
        sub_byte(byte(d, 3)),
    ]) ^ key
}

// A column after the four steps of a round, from the columns that the row shift takes it from.
fn inv_mixed_column(a: u32, b: u32, c: u32, d: u32, key: u32) -> u32
    ensures { to_le_bytes w32 result
        ≡ add (times_column inv_mix (map inv_sbox (byte_at 0 a ∷ byte_at 1 b ∷ byte_at 2 c ∷ byte_at 3 d ∷ []))) (to_le_bytes w32 key) }
{
    inv_mixed_share(0, byte(a, 0))
        ^ inv_mixed_share(1, byte(b, 1))
        ^ inv_mixed_share(2, byte(c, 2))
        ^ inv_mixed_share(3, byte(d, 3))
        ^ key
}

fn inv_last_column(a: u32, b: u32, c: u32, d: u32, key: u32) -> u32
    ensures { to_le_bytes w32 result
        ≡ add (map inv_sbox (byte_at 0 a ∷ byte_at 1 b ∷ byte_at 2 c ∷ byte_at 3 d ∷ [])) (to_le_bytes w32 key) }
{
    u32::from_le_bytes([
        inv_sub_byte(byte(a, 0)),
        inv_sub_byte(byte(b, 1)),
        inv_sub_byte(byte(c, 2)),
        inv_sub_byte(byte(d, 3)),
    ]) ^ key
}

pub fn full_round(s: Columns, keys: &[u32; 60], r: usize) -> Columns
    requires { r < 15 }
    ensures { state_of result ≡ full_round (key_at keys.now r) (state_of s) }
{
    let Columns { a, b, c, d } = s;
    Columns {
        a: mixed_column(a, b, c, d, keys[4 * r]),
        b: mixed_column(b, c, d, a, keys[4 * r + 1]),
        c: mixed_column(c, d, a, b, keys[4 * r + 2]),
        d: mixed_column(d, a, b, c, keys[4 * r + 3]),
    }
}

pub fn last_round(s: Columns, keys: &[u32; 60], r: usize) -> Columns
    requires { r < 15 }
    ensures { state_of result ≡ last_round (key_at keys.now r) (state_of s) }
{
    let Columns { a, b, c, d } = s;
    Columns {
        a: last_column(a, b, c, d, keys[4 * r]),
        b: last_column(b, c, d, a, keys[4 * r + 1]),
        c: last_column(c, d, a, b, keys[4 * r + 2]),
        d: last_column(d, a, b, c, keys[4 * r + 3]),
    }
}

// A round of the inverse cipher. Its key is the product of the round's own key and the column
// polynomial, since a product of columns is linear.
pub fn inv_round(s: Columns, keys: &[u32; 60], r: usize) -> Columns
    requires { r < 15 }
    ensures { state_of result ≡ add (times_columns inv_mix (map inv_sbox (inv_shift_rows (state_of s)))) (key_at keys.now r) }
{
    let Columns { a, b, c, d } = s;
    Columns {
        a: inv_mixed_column(a, d, c, b, keys[4 * r]),
        b: inv_mixed_column(b, a, d, c, keys[4 * r + 1]),
        c: inv_mixed_column(c, b, a, d, keys[4 * r + 2]),
        d: inv_mixed_column(d, c, b, a, keys[4 * r + 3]),
    }
}

pub fn inv_last_round(s: Columns, keys: &[u32; 60], r: usize) -> Columns
    requires { r < 15 }
    ensures { state_of result ≡ inv_last_round (key_at keys.now r) (state_of s) }
{
    let Columns { a, b, c, d } = s;
    Columns {
        a: inv_last_column(a, d, c, b, keys[4 * r]),
        b: inv_last_column(b, a, d, c, keys[4 * r + 1]),
        c: inv_last_column(c, b, a, d, keys[4 * r + 2]),
        d: inv_last_column(d, c, b, a, keys[4 * r + 3]),
    }
}

pub fn add_key(s: Columns, keys: &[u32; 60], r: usize) -> Columns
    requires { r < 15 }
    ensures { state_of result ≡ add (state_of s) (key_at keys.now r) }
{
    let Columns { a, b, c, d } = s;
    Columns {
        a: a ^ keys[4 * r],
        b: b ^ keys[4 * r + 1],
        c: c ^ keys[4 * r + 2],
        d: d ^ keys[4 * r + 3],
    }
}

fn word_at(block: &[u8; 16], i: usize) -> u32
    requires { i < 4 }
    ensures { to_le_bytes w32 result
        ≡ slice_index block.now (4 * i) ∷ slice_index block.now (4 * i + 1) ∷ slice_index block.now (4 * i + 2) ∷ slice_index block.now (4 * i + 3) ∷ [] }
{
    u32::from_le_bytes([
        block[4 * i],
        block[4 * i + 1],
        block[4 * i + 2],
        block[4 * i + 3],
    ])
}

pub fn load(block: &[u8; 16]) -> Columns
    ensures { state_of result ≡ block.now }
{
    Columns {
        a: word_at(block, 0),
        b: word_at(block, 1),
        c: word_at(block, 2),
        d: word_at(block, 3),
    }
}

pub fn store(s: Columns) -> [u8; 16]
    ensures { result ≡ state_of s }
{
    let a = s.a.to_le_bytes();
    let b = s.b.to_le_bytes();
    let c = s.c.to_le_bytes();
    let d = s.d.to_le_bytes();
    [
        a[0], a[1], a[2], a[3], b[0], b[1], b[2], b[3], c[0], c[1], c[2], c[3], d[0], d[1], d[2],
        d[3],
    ]
}

// A word of a round key, times the inverse column polynomial.
pub fn inv_mixed_word(word: u32) -> u32
    ensures { to_le_bytes w32 result ≡ times_column inv_mix (to_le_bytes w32 word) }
{
    inv_mixed_share(0, sub_byte(byte(word, 0)))
        ^ inv_mixed_share(1, sub_byte(byte(word, 1)))
        ^ inv_mixed_share(2, sub_byte(byte(word, 2)))
        ^ inv_mixed_share(3, sub_byte(byte(word, 3)))
}
