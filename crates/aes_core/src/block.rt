//! One block in either direction (FIPS 197, sections 5.1 and 5.3).

ghost use Rattle.std.specs.Prelude.{◌≡◌};
ghost use Rattle.aes_core.specs.Cipher.{cipher, inv_cipher};

use crate::columns::{add_key, full_round, inv_last_round, inv_round, last_round, load, store};
use crate::key_schedule::KeySchedule;

/// Encrypts a block in place.
pub fn encrypt_block(k: &KeySchedule, block: &mut [u8; 16])
    ensures { block.new ≡ cipher k.now block.old }
{
    let rounds = k.rounds;
    let start = load(block);
    let mut s = add_key(start, &k.forward, 0);
    // Two rounds at a time, so that no word is moved from one register to another.
    'pairs: for pair in 1..rounds / 2 {
        s = full_round(s, &k.forward, 2 * pair - 1);
        s = full_round(s, &k.forward, 2 * pair);
    }
    s = full_round(s, &k.forward, rounds - 1);
    let end = store(last_round(s, &k.forward, rounds));
    *block = end;
}

/// Decrypts a block in place.
pub fn decrypt_block(k: &KeySchedule, block: &mut [u8; 16])
    ensures { block.new ≡ inv_cipher k.now block.old }
{
    let rounds = k.rounds;
    let start = load(block);
    let mut s = add_key(start, &k.backward, 0);
    'pairs: for pair in 1..rounds / 2 {
        s = inv_round(s, &k.backward, 2 * pair - 1);
        s = inv_round(s, &k.backward, 2 * pair);
    }
    s = inv_round(s, &k.backward, rounds - 1);
    let end = store(inv_last_round(s, &k.backward, rounds));
    *block = end;
}
