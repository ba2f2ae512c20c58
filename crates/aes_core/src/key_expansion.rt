//! The words of the key schedule (FIPS 197, section 5.2), and the keys of the inverse cipher (section 5.3.5).

ghost use Rattle.std.specs.Prelude.{◌≡◌, ℕ, ◌≤◌, ◌<◌, ◌⊎◌, ◌*◌, ◌+◌, ◌-◌, ◌/◌, ◌%◌, map, take, drop};
ghost use Rattle.std.specs.Int.{w32, to_le_bytes};
ghost use Rattle.aes_core.specs.Field.{sbox};
ghost use Rattle.aes_core.specs.KeyExpansion.{rot_word, word_mask, key_expansion};
ghost use Rattle.aes_core.specs.RoundKeys.{IsPaired};

use crate::columns::{byte, inv_mixed_word};
use crate::tables::{round_constant, sub_byte};

fn sub_word(word: u32) -> u32
    ensures { to_le_bytes w32 result ≡ map sbox (to_le_bytes w32 word) }
{
    u32::from_le_bytes([
        sub_byte(byte(word, 0)),
        sub_byte(byte(word, 1)),
        sub_byte(byte(word, 2)),
        sub_byte(byte(word, 3)),
    ])
}

fn sub_rot_word(word: u32) -> u32
    ensures { to_le_bytes w32 result ≡ map sbox (rot_word (to_le_bytes w32 word)) }
{
    u32::from_le_bytes([
        sub_byte(byte(word, 1)),
        sub_byte(byte(word, 2)),
        sub_byte(byte(word, 3)),
        sub_byte(byte(word, 0)),
    ])
}

// What is added to word i - nk to give word i.
fn word_mask(nk: usize, i: usize, before: u32) -> u32
    requires key { (nk ≡ 4) ⊎ (nk ≡ 8) }
    requires low { nk ≤ i }
    requires high { i < 4 * (nk + 7) }
    ensures { to_le_bytes w32 result ≡ word_mask nk i (to_le_bytes w32 before) }
{
    if i % nk == 0 {
        sub_rot_word(before) ^ round_constant(i / nk)
    } else if nk > 6 && i % nk == 4 {
        sub_word(before)
    } else {
        before
    }
}

fn key_word(raw: &[u8; 32], i: usize) -> u32
    requires { i < 8 }
    ensures { to_le_bytes w32 result ≡ take 4 (drop (4 * i) raw.now) }
{
    u32::from_le_bytes([raw[4 * i], raw[4 * i + 1], raw[4 * i + 2], raw[4 * i + 3]])
}

pub fn expand(nk: usize, raw: &[u8; 32]) -> [u32; 60]
    requires { (nk ≡ 4) ⊎ (nk ≡ 8) }
    ensures { map (to_le_bytes w32) (take (4 * (nk + 7)) result) ≡ key_expansion nk raw.now }
{
    let mut keys = [0u32; 60];
    'key: for i in 0..nk {
        keys[i] = key_word(raw, i);
    }
    'more: for i in nk..4 * (nk + 7) {
        let word = keys[i - nk] ^ word_mask(nk, i, keys[i - 1]);
        keys[i] = word;
    }
    keys
}

// The keys of the inverse cipher, in its order.
pub fn backward(rounds: usize, forward: &[u32; 60]) -> [u32; 60]
    requires low { 4 ≤ rounds }
    requires high { rounds ≤ 14 }
    ensures { IsPaired rounds forward.now result }
{
    let mut keys = [0u32; 60];
    'words: for i in 0..4 * (rounds + 1) {
        let word = forward[4 * (rounds - i / 4) + i % 4];
        keys[i] = if i < 4 || i >= 4 * rounds {
            word
        } else {
            inv_mixed_word(word)
        };
    }
    keys
}
