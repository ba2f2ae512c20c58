//! The functions of the ciphers.

use aes_core::{KeySchedule, decrypt_block, encrypt_block};
use krb_crypto::{derive, hmac_sha1, open_in_place, seal, string_to_key};
use krb_names::{Etype, Key};
use std::alloc::Global;

// The key of FIPS 197, appendix C.
const RAW: [u8; 32] = [
    0, 1, 2, 3, 4, 5, 6, 7, 8, 9, 10, 11, 12, 13, 14, 15, 16, 17, 18, 19, 20, 21, 22, 23, 24, 25,
    26, 27, 28, 29, 30, 31,
];

// Its block.
const BLOCK: [u8; 16] = [
    0x00, 0x11, 0x22, 0x33, 0x44, 0x55, 0x66, 0x77, 0x88, 0x99, 0xaa, 0xbb, 0xcc, 0xdd, 0xee, 0xff,
];

// How long the messages are.
const LENGTH: usize = 1000;

/// What a kernel gives after so many times.
pub fn run(alloc: Global, kernel: &str, etype: Etype, count: u32) -> Option<Vec<u8>> {
    match kernel {
        "aes-encrypt" => encrypted(etype, count).to_vec(alloc).ok(),
        "aes-decrypt" => decrypted(etype, count).to_vec(alloc).ok(),
        "key-schedule" => scheduled(etype, count).to_vec(alloc).ok(),
        "derive" => derived(etype, count).bytes().to_vec(alloc).ok(),
        "string-to-key" => password_key(etype, count)?.bytes().to_vec(alloc).ok(),
        "hmac" => hashed(count).to_vec(alloc).ok(),
        "open" => opened(alloc, etype, count),
        _ => None,
    }
}

// The key of a type.
fn key(etype: Etype) -> Key {
    match etype {
        Etype::Aes128 => Key::new(etype, &RAW[..16]),
        Etype::Aes256 => Key::new(etype, &RAW),
    }
}

fn schedule(etype: Etype, raw: &[u8; 32]) -> KeySchedule {
    match etype {
        Etype::Aes128 => KeySchedule::new(128, raw),
        Etype::Aes256 => KeySchedule::new(256, raw),
    }
}

// A block, encrypted again and again.
fn encrypted(etype: Etype, count: u32) -> [u8; 16] {
    let schedule = schedule(etype, &RAW);
    let mut block = BLOCK;
    for _ in 0..count {
        encrypt_block(&schedule, &mut block);
    }
    block
}

// A block, decrypted again and again.
fn decrypted(etype: Etype, count: u32) -> [u8; 16] {
    let schedule = schedule(etype, &RAW);
    let mut block = BLOCK;
    for _ in 0..count {
        decrypt_block(&schedule, &mut block);
    }
    block
}

// A block, encrypted under keys that begin with the block before.
fn scheduled(etype: Etype, count: u32) -> [u8; 16] {
    let mut raw = RAW;
    let mut block = BLOCK;
    for _ in 0..count {
        let schedule = schedule(etype, &raw);
        encrypt_block(&schedule, &mut block);
        raw[..16].copy_from_slice(&block);
    }
    block
}

// A key derived from a key, and so on.
fn derived(etype: Etype, count: u32) -> Key {
    let mut last = key(etype);
    for usage in 0..count {
        last = derive(&last, usage, 0xaa);
    }
    last
}

// The key of a password, with so many rounds.
fn password_key(etype: Etype, rounds: u32) -> Option<Key> {
    if rounds == 0 {
        return None;
    }
    Some(string_to_key(etype, b"password", b"ATHENA.MIT.EDUraeburn", rounds))
}

// The HMAC of a text under the HMAC before.
fn hashed(count: u32) -> [u8; 20] {
    let text = [0x61u8; LENGTH];
    let mut sum = [0; 20];
    for _ in 0..count {
        sum = hmac_sha1(&sum, &text);
    }
    sum
}

// The sum of the last bytes of a message that is opened again and again.
fn opened(alloc: Global, etype: Etype, count: u32) -> Option<Vec<u8>> {
    let key = key(etype);
    let sealed = seal(alloc, &key, 2, &BLOCK, &[0x61u8; LENGTH]).ok()?;
    let mut work = sealed.as_slice().to_vec(alloc).ok()?;
    let mut last = 0u8;
    for _ in 0..count {
        if work.len() != sealed.len() {
            return None;
        }
        work.as_mut_slice().copy_from_slice(sealed.as_slice());
        let range = open_in_place(&key, 2, work.as_mut_slice())?;
        last ^= *work.as_slice().get(range)?.last()?;
    }
    [last].to_vec(alloc).ok()
}
