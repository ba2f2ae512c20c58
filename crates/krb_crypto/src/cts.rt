//! CBC with ciphertext stealing (RFC 3962, section 5), with an initial vector of zeros.

ghost use Rattle.std.specs.Prelude.{◌≡◌, ◌≤◌, ◌<◌, ◌+◌, ◌++◌, List, ℕ, length, take, drop};
ghost use Rattle.aes_core.specs.Aes.{add};
ghost use Rattle.aes_core.specs.Cipher.{cipher, inv_cipher};
ghost use Rattle.krb_crypto.specs.BlockCipher.{encrypt, decrypt};
ghost use Rattle.krb_crypto.specs.CiphertextStealing.{cts_encrypt, cts_decrypt, encrypt_last, decrypt_last};

use crate::block::{add, block_at, padded, schedule_of};
use aes_core::{KeySchedule, decrypt_block, encrypt_block};
use krb_names::Key;

// Encrypts the block at an index, after the cipher block `before`, which it becomes.
fn encrypt_next(schedule: &KeySchedule, before: &mut [u8; 16], text: &mut [u8], at: usize)
    requires { at + 16 ≤ length text.old }
    ensures block { before.new ≡ cipher schedule.now (add (take 16 (drop at text.old)) before.old) }
    ensures text { text.new ≡ take at text.old ++ before.new ++ drop (at + 16) text.old }
{
    let plain = block_at(text, at);
    let mut block = add(&plain, before);
    encrypt_block(schedule, &mut block);
    text[at..at + 16].copy_from_slice(&block);
    *before = block;
}

// Encrypts the last 17 to 32 bytes.
fn encrypt_last(schedule: &KeySchedule, before: &[u8; 16], last: &mut [u8])
    requires low { 16 < length last.old }
    requires high { length last.old ≤ 32 }
    ensures { last.new ≡ encrypt_last (cipher schedule.now) before.now last.old }
{
    let mut stolen = add(&block_at(last, 0), before);
    encrypt_block(schedule, &mut stolen);
    let mut block = add(&padded(&last[16..]), &stolen);
    encrypt_block(schedule, &mut block);
    let rest = last.len() - 16;
    last[16..].copy_from_slice(&stolen[..rest]);
    last[..16].copy_from_slice(&block);
}

/// Encrypts a text of at least 16 bytes in place, under a key schedule.
pub fn encrypt_text(schedule: &KeySchedule, bytes: &mut [u8])
    requires { 16 ≤ length bytes.old }
    ensures { bytes.new ≡ cts_encrypt (cipher schedule.now) bytes.old }
{
    let mut before = [0; 16];
    if bytes.len() == 16 {
        encrypt_next(schedule, &mut before, bytes, 0);
        return;
    }
    let front = (bytes.len() - 17) / 16;
    'front: for i in 0..front {
        encrypt_next(schedule, &mut before, bytes, 16 * i);
    }
    encrypt_last(schedule, &before, &mut bytes[16 * front..]);
}

// Decrypts the block at an index, after the cipher block `before`, in whose place the block itself comes.
fn decrypt_next(schedule: &KeySchedule, before: &mut [u8; 16], text: &mut [u8], at: usize)
    requires { at + 16 ≤ length text.old }
    ensures block { before.new ≡ take 16 (drop at text.old) }
    ensures text { text.new ≡ take at text.old ++ add (inv_cipher schedule.now before.new) before.old ++ drop (at + 16) text.old }
    ensures length { length (inv_cipher schedule.now before.new) ≡ 16 }
    ensures whole { length (add (inv_cipher schedule.now before.new) before.old) ≡ 16 }
{
    let sealed = block_at(text, at);
    let mut block = sealed;
    decrypt_block(schedule, &mut block);
    text[at..at + 16].copy_from_slice(&add(&block, before));
    *before = sealed;
}

// Decrypts the last 17 to 32 bytes.
fn decrypt_last(schedule: &KeySchedule, before: &[u8; 16], last: &mut [u8])
    requires low { 16 < length last.old }
    requires high { length last.old ≤ 32 }
    ensures { last.new ≡ decrypt_last (inv_cipher schedule.now) before.now last.old }
{
    let rest = last.len() - 16;
    let mut tail = block_at(last, 0);
    decrypt_block(schedule, &mut tail);
    let mut stolen = tail;
    stolen[..rest].copy_from_slice(&last[16..]);
    let plain = add(&tail, &padded(&last[16..]));
    decrypt_block(schedule, &mut stolen);
    last[16..].copy_from_slice(&plain[..rest]);
    last[..16].copy_from_slice(&add(&stolen, before));
}

/// Decrypts a text of at least 16 bytes in place, under a key schedule.
pub fn decrypt_text(schedule: &KeySchedule, bytes: &mut [u8])
    requires { 16 ≤ length bytes.old }
    ensures { bytes.new ≡ cts_decrypt (inv_cipher schedule.now) bytes.old }
{
    let mut before = [0; 16];
    if bytes.len() == 16 {
        decrypt_next(schedule, &mut before, bytes, 0);
        return;
    }
    let front = (bytes.len() - 17) / 16;
    'front: for i in 0..front {
        decrypt_next(schedule, &mut before, bytes, 16 * i);
    }
    decrypt_last(schedule, &before, &mut bytes[16 * front..]);
}

/// Encrypts a text of at least 16 bytes in place.
pub fn cts_encrypt(key: &Key, bytes: &mut [u8])
    requires { 16 ≤ length bytes.old }
    ensures { bytes.new ≡ cts_encrypt (encrypt key.now) bytes.old }
{
    encrypt_text(&schedule_of(key), bytes);
}

/// Decrypts a text of at least 16 bytes in place.
pub fn cts_decrypt(key: &Key, bytes: &mut [u8])
    requires { 16 ≤ length bytes.old }
    ensures { bytes.new ≡ cts_decrypt (decrypt key.now) bytes.old }
{
    decrypt_text(&schedule_of(key), bytes);
}
