//! Mubjarde: a Kerberos KDC for S4U constrained delegation (MS-SFU over RFC 4120), and questions about its directory.
#![tactic(auto)]

use kb_base::{Door, Sink};
use kdc_commands::{read_port, run_words};
use kdc_devices::{FileChanges, FileSource, StdDoor, StdSink, SysClock, SysEntropy, TcpDoor};
use std::alloc::{AllocError, Global};
use std::env::{self, Args};
use std::io;
use std::process::ExitCode;

/// Makes the devices and calls `run_words`. `serve` has its callers over TCP; all else one caller, on standard input and
/// output. What is printed goes to standard output, the notes of `answer` to standard error.
fn main(rt: HostRuntime) -> io::Result<ExitCode> {
    let Ok(words) = words_of(rt.alloc(), env::args(&rt)) else {
        return Ok(ExitCode::from(3));
    };
    let words = words.as_slice();
    let status = match (port_of(words), words.first()) {
        (Some(port), _) => {
            let mut door = TcpDoor::new(&rt, port);
            let mut out = StdSink::new(rt.stdout());
            run(&rt, words, &mut door, &mut out)
        }
        (None, Some(word)) if word.as_str() == "answer" => {
            let mut door = StdDoor::new(rt.stdin(), rt.stdout());
            let mut out = StdSink::new(rt.stderr());
            run(&rt, words, &mut door, &mut out)
        }
        _ => {
            let mut door = StdDoor::new(rt.stdin(), rt.stdout());
            let mut out = StdSink::new(rt.stdout());
            run(&rt, words, &mut door, &mut out)
        }
    };
    Ok(ExitCode::from(status))
}

/// The port of the words, where they are those of `serve`.
fn port_of(words: &[String]) -> Option<u16> {
    match words {
        [word, _, port, _] if word.as_str() == "serve" => read_port(port.as_str()),
        _ => None,
    }
}

/// Runs the words over the files that they name, the system's clock and its random octets.
fn run<L: Door, O: Sink>(rt: &HostRuntime, words: &[String], door: &mut L, out: &mut O) -> u8 {
    let path = match words {
        [_, path, ..] => path.as_str(),
        _ => "",
    };
    let mut dir = FileSource::new(rt, path);
    let Ok(mut changes) = FileChanges::new(rt.alloc(), rt, path) else {
        return 3;
    };
    let mut clock = SysClock::new(rt);
    let mut entropy = SysEntropy::new(rt);
    run_words(
        rt.alloc(),
        words,
        &mut dir,
        &mut changes,
        door,
        &mut clock,
        &mut entropy,
        out,
    )
}

/// The words after the program's name; none where one is not UTF-8, since no command has such a word.
fn words_of(alloc: Global, args: io::Result<Args>) -> Result<Vec<String>, AllocError> {
    let mut words = Vec::new(alloc);
    match args {
        Err(error) if error.kind() == io::ErrorKind::OutOfMemory => return Err(AllocError),
        Err(_) => {}
        Ok(args) => {
            for word in args.skip(1) {
                words.push(word)?;
            }
        }
    }
    Ok(words)
}
