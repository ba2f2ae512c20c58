//! The cases.

use crate::words::{bytes, etype, key, key_at, number};
use aes_core::{KeySchedule, decrypt_block, encrypt_block};
use krb_crypto::{
    cts_decrypt, cts_encrypt, derive, hmac_md5, hmac_sha1, mac, mac_ok, mac_zeroed, nfold,
    open_in_place, rc4_mac, seal, string_to_key,
};
use pac_buffers::PacView;
use pac_sign::{SignFault, verify};
use std::alloc::Global;

/// What the library makes of a case, or nothing.
pub fn answer(alloc: Global, line: &str) -> Option<Vec<u8>> {
    let words = line.split(' ').collect::<Vec<&str>>(alloc).ok()?;
    let words = words.as_slice();
    match *words.first()? {
        "aes" => aes(alloc, words),
        "hmac" => hmac(alloc, words),
        "nfold" => fold(alloc, words),
        "derive" => derived(alloc, words),
        "cts" => stolen(alloc, words),
        "seal" => sealed(alloc, words),
        "open" => opened(alloc, words),
        "mac" => sum(alloc, words),
        "zeroed" => zeroed_sum(alloc, words),
        "rc4_mac" => rc4_sum(alloc, words),
        "string_to_key" => password_key(alloc, words),
        "pac" => signed_pac(alloc, words),
        _ => None,
    }
}

// `aes KEY BLOCK`: the encrypted block, which decrypts to the block.
fn aes(alloc: Global, words: &[&str]) -> Option<Vec<u8>> {
    let raw = bytes(alloc, words, 1)?;
    let plain = bytes(alloc, words, 2)?;
    if plain.len() != 16 {
        return None;
    }
    let mut key = [0; 32];
    let schedule = if raw.len() == 32 {
        key.copy_from_slice(raw.as_slice());
        KeySchedule::new(256, &key)
    } else if raw.len() == 16 {
        key[..16].copy_from_slice(raw.as_slice());
        KeySchedule::new(128, &key)
    } else {
        return None;
    };
    let mut block = [0; 16];
    block.copy_from_slice(plain.as_slice());
    encrypt_block(&schedule, &mut block);
    let cipher = block;
    decrypt_block(&schedule, &mut block);
    if block.as_slice() == plain.as_slice() {
        cipher.to_vec(alloc).ok()
    } else {
        None
    }
}

// `hmac KEY TEXT`: the HMAC with SHA-1, and then the one with MD5.
fn hmac(alloc: Global, words: &[&str]) -> Option<Vec<u8>> {
    let key = bytes(alloc, words, 1)?;
    let text = bytes(alloc, words, 2)?;
    let mut sums = hmac_sha1(key.as_slice(), text.as_slice())
        .to_vec(alloc)
        .ok()?;
    let second = hmac_md5(key.as_slice(), text.as_slice());
    sums.extend_from_slice(&second).ok()?;
    Some(sums)
}

// `nfold LENGTH TEXT`: the text folded to so many bytes.
fn fold(alloc: Global, words: &[&str]) -> Option<Vec<u8>> {
    let length = number(words, 1)? as usize;
    let text = bytes(alloc, words, 2)?;
    if text.is_empty() || text.len() > 64 || length == 0 || length > 64 {
        return None;
    }
    let mut out = vec![in alloc; 0u8; length].ok()?;
    if out.len() != length {
        return None;
    }
    nfold(text.as_slice(), out.as_mut_slice());
    Some(out)
}

// `derive ETYPE KEY USAGE TAIL`: the derived key.
fn derived(alloc: Global, words: &[&str]) -> Option<Vec<u8>> {
    let base = key(alloc, words)?;
    let usage = number(words, 3)?;
    let tail = bytes(alloc, words, 4)?;
    let tail = *tail.first()?;
    derive(&base, usage, tail).bytes().to_vec(alloc).ok()
}

// `cts ETYPE KEY TEXT`: the encrypted text, which decrypts to the text.
fn stolen(alloc: Global, words: &[&str]) -> Option<Vec<u8>> {
    let key = key(alloc, words)?;
    let plain = bytes(alloc, words, 3)?;
    if plain.len() < 16 {
        return None;
    }
    let mut cipher = plain.as_slice().to_vec(alloc).ok()?;
    cts_encrypt(&key, cipher.as_mut_slice());
    let mut text = cipher.as_slice().to_vec(alloc).ok()?;
    cts_decrypt(&key, text.as_mut_slice());
    if text.as_slice() == plain.as_slice() {
        Some(cipher)
    } else {
        None
    }
}

// `seal ETYPE KEY USAGE CONFOUNDER MESSAGE`: both sealed.
fn sealed(alloc: Global, words: &[&str]) -> Option<Vec<u8>> {
    let key = key(alloc, words)?;
    let usage = number(words, 3)?;
    let conf = bytes(alloc, words, 4)?;
    let plain = bytes(alloc, words, 5)?;
    if conf.len() != 16 {
        return None;
    }
    let mut confounder = [0; 16];
    confounder.copy_from_slice(conf.as_slice());
    let sealed = seal(alloc, &key, usage, &confounder, plain.as_slice()).ok()?;
    Some(sealed.into_vec())
}

// `open ETYPE KEY USAGE SEALED`: the message.
fn opened(alloc: Global, words: &[&str]) -> Option<Vec<u8>> {
    let key = key(alloc, words)?;
    let usage = number(words, 3)?;
    let mut cipher = bytes(alloc, words, 4)?;
    let range = open_in_place(&key, usage, cipher.as_mut_slice())?;
    cipher.as_slice().get(range)?.to_vec(alloc).ok()
}

// `mac ETYPE KEY USAGE TEXT`: the checksum, which is the one that is compared.
fn sum(alloc: Global, words: &[&str]) -> Option<Vec<u8>> {
    let key = key(alloc, words)?;
    let usage = number(words, 3)?;
    let text = bytes(alloc, words, 4)?;
    let sum = mac(&key, usage, text.as_slice());
    if mac_ok(&key, usage, text.as_slice(), &sum) {
        sum.to_vec(alloc).ok()
    } else {
        None
    }
}

// `zeroed ETYPE KEY USAGE TEXT START END START END`: the checksum with two ranges zero.
fn zeroed_sum(alloc: Global, words: &[&str]) -> Option<Vec<u8>> {
    let key = key(alloc, words)?;
    let usage = number(words, 3)?;
    let text = bytes(alloc, words, 4)?;
    let first = number(words, 5)? as usize..number(words, 6)? as usize;
    let second = number(words, 7)? as usize..number(words, 8)? as usize;
    if first.start > first.end || first.end > text.len() {
        return None;
    }
    if second.start > second.end || second.end > text.len() {
        return None;
    }
    mac_zeroed(&key, usage, text.as_slice(), first, second)
        .to_vec(alloc)
        .ok()
}

// `rc4_mac KEY USAGE TEXT`: the checksum of type -138.
fn rc4_sum(alloc: Global, words: &[&str]) -> Option<Vec<u8>> {
    let key = bytes(alloc, words, 1)?;
    let usage = number(words, 2)?;
    let text = bytes(alloc, words, 3)?;
    rc4_mac(key.as_slice(), usage, text.as_slice())
        .to_vec(alloc)
        .ok()
}

// `string_to_key ETYPE ROUNDS SALT PASSWORD`: the key of the password.
fn password_key(alloc: Global, words: &[&str]) -> Option<Vec<u8>> {
    let etype = etype(words, 1)?;
    let rounds = number(words, 2)?;
    let salt = bytes(alloc, words, 3)?;
    let password = bytes(alloc, words, 4)?;
    if rounds == 0 {
        return None;
    }
    string_to_key(etype, password.as_slice(), salt.as_slice(), rounds)
        .bytes()
        .to_vec(alloc)
        .ok()
}

// `pac ETYPE KEY ETYPE KEY PAC PART`: 00 where the signatures of the PAC are right under the service's key and the realm's, the
// ticket signature over the part; else 01 for the server signature, 02 for that of the KDC, 03 for that of the ticket.
fn signed_pac(alloc: Global, words: &[&str]) -> Option<Vec<u8>> {
    let server = key_at(alloc, words, 1)?;
    let realm = key_at(alloc, words, 3)?;
    let pac = bytes(alloc, words, 5)?;
    let part = bytes(alloc, words, 6)?;
    if pac.len() > 131_072 {
        return None;
    }
    let view = PacView::read(pac.as_slice()).ok()?;
    let told = match verify(&view, &server, Some(&realm), Some(part.as_slice())) {
        Ok(()) => 0u8,
        Err(SignFault::Server) => 1,
        Err(SignFault::Kdc) => 2,
        Err(SignFault::Ticket) => 3,
    };
    [told].to_vec(alloc).ok()
}
