//! Repeats runs of the program over devices in memory, from a text on standard input, the same byte for byte each time. Octets are
//! hexadecimal digits in lower case, `-` none.
//!
//! | Line | What it gives |
//! |---|---|
//! | `words HEX ..` | the words after the program's name |
//! | `dir HEX` | what the file DIR holds |
//! | `batch HEX` | a batch of change lines, at most 1,048,576 bytes; again for each |
//! | `caller HEX` | a caller's bytes; again for each |
//! | `moment SECS MICROS` | the clock; again for each, and the last one repeats; none: 1,700,000,000 and 0 |
//! | `block HEX` | 64 random octets; again for each; past the end a block is its number |
//! | `fails DEVICE N ..` | the calls, counted from 1, that fail of `dir`, `changes`, `door`, `entropy` or `out` |
//! | `run` | runs what was given, prints `status N`, `out HEX`, `sent HEX` for each caller and `end`, and forgets it |
#![tactic(auto)]

mod fault;
mod octets;
mod replay;
mod script;

use crate::fault::LineFault;
use crate::replay::{print, replay};
use crate::script::Script;
use std::alloc::AllocError;
use std::io::{self, BufRead, BufReader};
use std::process::ExitCode;

/// Ends with status 1 at the first line that does not read, and tells its number.
fn main(rt: HostRuntime) -> io::Result<ExitCode> {
    let mut script = Script::new(rt.alloc());
    let mut number = 0u64;
    for line in BufReader::new(rt.alloc(), rt.reader())?.lines(rt.alloc()) {
        let line = line?;
        number = number.saturating_add(1);
        if line.as_str() == "run" {
            let report = replay(rt.alloc(), script)?;
            print(&rt, &report)?;
            script = Script::new(rt.alloc());
            continue;
        }
        match script.read(line.as_str()) {
            Ok(()) => {}
            Err(LineFault::NoMemory) => return Err(io::Error::from(AllocError)),
            Err(LineFault::Unread) => {
                println!(rt; "line {number} does not read")?;
                return Ok(ExitCode::from(1));
            }
        }
    }
    Ok(ExitCode::from(0))
}
