//! Runs a function of the libraries a number of times, for each line `KERNEL NUMBER COUNT` of the input,
//! and prints bytes that depend on every result. NUMBER is an encryption type, for `directory` the number of accounts, for
//! `answer` a moment in seconds after 1970; that line goes on with a directory and a request in hex.
#![tactic(auto)]

mod answer;
mod ciphers;
mod directory;
mod pac;

use krb_names::Etype;
use std::alloc::Global;
use std::io;

fn main(rt: HostRuntime) -> io::Result<()> {
    for line in rt.lines(rt.alloc()) {
        let line = line?;
        match asked(line.as_str()).and_then(|(kernel, number, count, words)| run(
            rt.alloc(),
            kernel,
            number,
            count,
            words,
        )) {
            Some(bytes) => {
                for byte in &bytes {
                    print!(rt; "{byte:02x}")?;
                }
                println!(rt; "")?;
            }
            None => println!(rt; "none")?,
        }
    }
    Ok(())
}

// The kernel, its number, the number of times, and what follows.
fn asked(line: &str) -> Option<(&str, u32, u32, &str)> {
    let (kernel, rest) = line.split_once(' ')?;
    let (number, rest) = rest.split_once(' ')?;
    let (count, words) = match rest.split_once(' ') {
        Some((count, words)) => (count, words),
        None => (rest, ""),
    };
    Some((
        kernel,
        number.parse::<u32>().ok()?,
        count.parse::<u32>().ok()?,
        words,
    ))
}

fn run(alloc: Global, kernel: &str, number: u32, count: u32, words: &str) -> Option<Vec<u8>> {
    match kernel {
        "answer" => answer::answered(alloc, number, count, words),
        "directory" => directory::changed(alloc, number, count),
        "read-pac" => pac::read(alloc, etype(number)?, count),
        "verify-pac" => pac::verified(alloc, etype(number)?, count),
        _ => ciphers::run(alloc, kernel, etype(number)?, count),
    }
}

fn etype(number: u32) -> Option<Etype> {
    match number {
        17 => Some(Etype::Aes128),
        18 => Some(Etype::Aes256),
        _ => None,
    }
}
