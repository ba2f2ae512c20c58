//! What a run is given, line by line.
ghost use Rattle.std.specs.Prelude.{◌≡◌, ◌≤◌, All, IfOk, MatchResult, None, Some, length};
ghost use Rattle.krb_names.specs.Decimals.{decimal_reading};
ghost use Rattle.kdc_replay.specs.Octets.{spelling};

use crate::fault::LineFault;
use crate::octets::read_octets;
use krb_names::{Bytes, Items, Moment, Numbers, parse_decimal};
use std::alloc::Global;

/// The words, the contents of the devices, and the calls of each that fail.
#[derive(Drop)]
pub struct Script {
    pub alloc: Global,
    pub words: Items<String>,
    pub dir: Bytes,
    pub batches: Items<Bytes>,
    pub callers: Items<Bytes>,
    pub moments: Items<Moment>,
    pub blocks: Items<[u8; 64]>,
    pub fails: Fails,
    pub ghost few: { All (λ batch. length batch ≤ 1048576) batches },
}

/// The calls of each device that fail, counted from 1.
#[derive(Drop)]
pub struct Fails {
    pub dir: Numbers,
    pub changes: Numbers,
    pub door: Numbers,
    pub entropy: Numbers,
    pub out: Numbers,
}

/// The most bytes of a batch.
const MAX_BATCH: usize = 1_048_576;

/// The last second of a clock.
const MAX_SECS: u64 = 250_000_000_000;

impl Script {
    /// Nothing yet.
    pub fn new(alloc: Global) -> Script {
        Script {
            alloc,
            words: Items::new(alloc),
            dir: Bytes::new(alloc),
            batches: Items::new(alloc),
            callers: Items::new(alloc),
            moments: Items::new(alloc),
            blocks: Items::new(alloc),
            fails: Fails {
                dir: Numbers::new(alloc),
                changes: Numbers::new(alloc),
                door: Numbers::new(alloc),
                entropy: Numbers::new(alloc),
                out: Numbers::new(alloc),
            },
        }
    }

    /// Reads a line other than `run`. Words, the file DIR, and the calls of a device that fail stand in the place of those given before.
    pub fn read(&mut self, line: &str) -> Result<(), LineFault> {
        let Some((kind, rest)) = line.split_once(' ') else {
            return Err(LineFault::Unread);
        };
        match kind {
            "words" => self.words = read_words(self.alloc, rest)?,
            "dir" => self.dir = read_octets(self.alloc, rest)?,
            "batch" => self.add_batch(rest)?,
            "caller" => self.callers.push(read_octets(self.alloc, rest)?)?,
            "moment" => self.moments.push(read_moment(rest)?)?,
            "block" => self.blocks.push(read_block(self.alloc, rest)?)?,
            "fails" => self.set_fails(rest)?,
            _ => return Err(LineFault::Unread),
        }
        Ok(())
    }

    fn add_batch(&mut self, rest: &str) -> Result<(), LineFault> {
        let batch = read_octets(self.alloc, rest)?;
        if batch.len() > MAX_BATCH {
            return Err(LineFault::Unread);
        }
        self.batches.push(batch)?;
        Ok(())
    }

    fn set_fails(&mut self, rest: &str) -> Result<(), LineFault> {
        let Some((device, rest)) = rest.split_once(' ') else {
            return Err(LineFault::Unread);
        };
        let calls = read_numbers(self.alloc, rest)?;
        match device {
            "dir" => self.fails.dir = calls,
            "changes" => self.fails.changes = calls,
            "door" => self.fails.door = calls,
            "entropy" => self.fails.entropy = calls,
            "out" => self.fails.out = calls,
            _ => return Err(LineFault::Unread),
        }
        Ok(())
    }
}

fn read_words(alloc: Global, rest: &str) -> Result<Items<String>, LineFault> {
    let mut words = Items::new(alloc);
    for word in rest.split(' ') {
        let octets = read_octets(alloc, word)?;
        let Ok(word) = String::from_utf8(octets.into_vec()) else {
            return Err(LineFault::Unread);
        };
        words.push(word)?;
    }
    Ok(words)
}

fn read_numbers(alloc: Global, rest: &str) -> Result<Numbers, LineFault> {
    let mut numbers = Numbers::new(alloc);
    for word in rest.split(' ') {
        numbers.push(read_number(word, u32::MAX as u64)? as u32)?;
    }
    Ok(numbers)
}

/// The number that a word writes in decimal digits.
fn read_number(word: &str, most: u64) -> Result<u64, LineFault>
    ensures value { MatchResult result (λ number. decimal_reading most word.now ≡ Some number) (λ _. decimal_reading most word.now ≡ None) }
    ensures limit { IfOk result (λ number. number ≤ most) }
{
    match parse_decimal(word, most) {
        Some(number) => Ok(number),
        None => Err(LineFault::Unread),
    }
}

fn read_moment(rest: &str) -> Result<Moment, LineFault> {
    let Some((secs, micros)) = rest.split_once(' ') else {
        return Err(LineFault::Unread);
    };
    Ok(Moment {
        secs: read_number(secs, MAX_SECS)?,
        micros: read_number(micros, 999_999)? as u32,
    })
}

/// The block that 128 digits spell.
fn read_block(alloc: Global, rest: &str) -> Result<[u8; 64], LineFault>
    ensures { IfOk result (λ block. spelling block ≡ rest.now) }
{
    let octets = read_octets(alloc, rest)?;
    match <[u8; 64]>::try_from(octets.as_slice()) {
        Ok(block) => Ok(block),
        Err(_) => Err(LineFault::Unread),
    }
}
