//! Answering a request again and again.

use dir_text::read_directory;
use krb_names::{KTime, Moment};
use std::alloc::Global;
use tgs_core::answer;

// The longest directory, in bytes.
const MOST_BYTES: usize = 1 << 24;

/// The length of the replies to a request, so many times, at a moment in seconds: `words` are the directory and the request
/// in hex.
pub fn answered(alloc: Global, secs: u32, count: u32, words: &str) -> Option<Vec<u8>> {
    let (directory, request) = words.split_once(' ')?;
    let text = hex::decode(alloc, directory).ok()?;
    let bytes = hex::decode(alloc, request).ok()?;
    if text.len() > MOST_BYTES {
        return None;
    }
    let dir = read_directory(alloc, text.as_slice()).ok()?;
    let now = Moment {
        secs: secs as u64,
        micros: 0,
    };
    let mut total = 0u64;
    for turn in 0..count {
        let random = [(turn % 256) as u8; 64];
        let answered = answer(alloc, &dir, now, &random, bytes.as_slice()).ok()?;
        total = total.wrapping_add(answered.reply.as_slice().len() as u64);
    }
    total.to_be_bytes().to_vec(alloc).ok()
}
