//! The words of a case.

use krb_names::{Etype, Key};
use std::alloc::Global;

/// The bytes that a word spells.
pub fn bytes(alloc: Global, words: &[&str], at: usize) -> Option<Vec<u8>> {
    let word = *words.get(at)?;
    if word == "-" {
        return Some(Vec::new(alloc));
    }
    hex::decode(alloc, word).ok()
}

/// The number that a word spells.
pub fn number(words: &[&str], at: usize) -> Option<u32> {
    words.get(at)?.parse::<u32>().ok()
}

/// The encryption type that a word names, 17 or 18.
pub fn etype(words: &[&str], at: usize) -> Option<Etype> {
    Etype::from_number(words.get(at)?.parse::<i32>().ok()?)
}

/// The key of two words, its type and its bytes.
pub fn key_at(alloc: Global, words: &[&str], at: usize) -> Option<Key> {
    let etype = etype(words, at)?;
    let raw = bytes(alloc, words, at.saturating_add(1))?;
    if raw.len() != etype.key_length() {
        return None;
    }
    Some(Key::new(etype, raw.as_slice()))
}

/// The key of the first two words after the kind.
pub fn key(alloc: Global, words: &[&str]) -> Option<Key> {
    key_at(alloc, words, 1)
}
