//! The words after the program's name.
ghost use Rattle.std.specs.Prelude.{◌≡◌, ◌≤◌, IfOk, IfSome, map, option_map, string_bytes};
ghost use Rattle.kdc_commands.specs.Words.{IsWithinLimits, answer_with, callers_of, command_of, derivation_of, derive_with, etype_of, over_with, port_of, rounds_of, serve_at, serve_to, serve_with, serving};

use krb_names::{Etype, Text, parse_decimal};
use std::alloc::{AllocError, Global};

/// What is done with the input over a directory.
#[derive(Clone, Copy, Debug, PartialEq, Eq)]
pub enum Task {
    /// Its lines are questions, and are answered.
    Ask,
    /// It is a ticket, and is told of.
    Explain,
}

/// What is done and then printed.
#[derive(Debug, Drop)]
pub enum Job {
    /// `ask DIR` or `explain DIR`.
    Over(Task),
    /// `derive ETYPE ROUNDS SALT PASSWORD`: prints the key of a password.
    Derive(Derivation),
}

/// What the words ask for.
#[derive(Debug, Drop)]
pub enum Command {
    /// Something that is done and then printed.
    Print(Job),
    /// `answer DIR`, or `serve DIR PORT CALLERS`: so many callers are served, 1 to 1,000,000.
    Serve(u64),
}

/// What a key is derived from (RFC 3962, section 4).
#[derive(Debug, Drop)]
pub struct Derivation {
    pub etype: Etype,
    /// The iteration count, 1 to 1,000,000.
    pub rounds: u32,
    pub salt: Text,
    pub password: Text,
}

/// The highest iteration count.
const MAX_ROUNDS: u64 = 1_000_000;

/// The highest port.
const MAX_PORT: u64 = 65_535;

/// The most callers of a run.
const MAX_CALLERS: u64 = 1_000_000;

/// Reads the words, which may be none of the program's.
pub fn read_command(alloc: Global, words: &[String]) -> Result<Option<Command>, AllocError>
    ensures value { IfOk result (λ command. command ≡ command_of (map string_bytes words.now)) }
    ensures rounds { IfOk result (λ command. IfSome command IsWithinLimits) }
{
    match words.split_first() {
        Some((word, rest)) if word.as_str() == "ask" => Ok(over(rest, Task::Ask)),
        Some((word, rest)) if word.as_str() == "explain" => Ok(over(rest, Task::Explain)),
        Some((word, rest)) if word.as_str() == "answer" => Ok(answer_with(rest)),
        Some((word, rest)) if word.as_str() == "serve" => Ok(serve_with(rest)),
        Some((word, rest)) if word.as_str() == "derive" => derive_with(alloc, rest),
        _ => Ok(None),
    }
}

/// The task, where DIR alone follows its word.
fn over(rest: &[String], task: Task) -> Option<Command>
    ensures { result ≡ over_with (map string_bytes rest.now) task }
{
    match rest {
        [_] => Some(Command::Print(Job::Over(task))),
        _ => None,
    }
}

/// One caller, where DIR alone follows the word.
fn answer_with(rest: &[String]) -> Option<Command>
    ensures value { result ≡ answer_with (map string_bytes rest.now) }
    ensures limits { IfSome result IsWithinLimits }
{
    match rest {
        [_] => Some(Command::Serve(1)),
        _ => None,
    }
}

/// DIR, PORT and CALLERS.
fn serve_with(rest: &[String]) -> Option<Command>
    ensures value { result ≡ serve_with (map string_bytes rest.now) }
    ensures limits { IfSome result IsWithinLimits }
{
    match rest.split_first() {
        Some((_, rest)) => serve_at(rest),
        None => None,
    }
}

/// PORT and CALLERS.
fn serve_at(rest: &[String]) -> Option<Command>
    ensures value { result ≡ serve_at (map string_bytes rest.now) }
    ensures limits { IfSome result IsWithinLimits }
{
    match rest.split_first() {
        Some((port, rest)) => serve_to(read_port(port.as_str()), rest),
        None => None,
    }
}

/// CALLERS, after a port.
fn serve_to(port: Option<u16>, rest: &[String]) -> Option<Command>
    ensures value { result ≡ serve_to port (map string_bytes rest.now) }
    ensures limits { IfSome result IsWithinLimits }
{
    match rest {
        [callers] => serving(port, read_callers(callers.as_str())),
        _ => None,
    }
}

fn serving(port: Option<u16>, callers: Option<u64>) -> Option<Command>
    requires { IfSome callers (λ n. n ≤ 1000000) }
    ensures value { result ≡ serving port callers }
    ensures limits { IfSome result IsWithinLimits }
{
    match (port, callers) {
        (Some(_), Some(callers)) => Some(Command::Serve(callers)),
        _ => None,
    }
}

/// The port that a word names, 1 to 65,535.
pub fn read_port(word: &str) -> Option<u16>
    ensures value { result ≡ port_of word.now }
{
    match parse_decimal(word, MAX_PORT) {
        Some(0) | None => None,
        Some(port) => Some(port as u16),
    }
}

fn read_callers(word: &str) -> Option<u64>
    ensures value { result ≡ callers_of word.now }
    ensures limits { IfSome result (λ n. n ≤ 1000000) }
{
    match parse_decimal(word, MAX_CALLERS) {
        Some(0) | None => None,
        Some(callers) => Some(callers),
    }
}

fn derive_with(alloc: Global, rest: &[String]) -> Result<Option<Command>, AllocError>
    ensures value { IfOk result (λ command. command ≡ derive_with (map string_bytes rest.now)) }
    ensures rounds { IfOk result (λ command. IfSome command IsWithinLimits) }
{
    match rest {
        [etype, rounds, texts @ ..] => {
            let (etype, rounds) = (read_etype(etype.as_str()), read_rounds(rounds.as_str()));
            read_derivation(alloc, etype, rounds, texts)
        }
        _ => Ok(None),
    }
}

fn read_derivation(
    alloc: Global,
    etype: Option<Etype>,
    rounds: Option<u32>,
    texts: &[String],
) -> Result<Option<Command>, AllocError>
    requires { IfSome rounds (λ n. 1 ≤ n) }
    ensures value { IfOk result (λ command. command ≡ option_map (λ from. Command.Print (Job.Derive from)) (derivation_of etype rounds (map string_bytes texts.now))) }
    ensures rounds { IfOk result (λ command. IfSome command IsWithinLimits) }
{
    match (etype, rounds, texts) {
        (Some(etype), Some(rounds), [salt, password]) => Ok(Some(Command::Print(Job::Derive(
            Derivation {
                etype,
                rounds,
                salt: Text::copy(alloc, salt.as_str())?,
                password: Text::copy(alloc, password.as_str())?,
            },
        )))),
        _ => Ok(None),
    }
}

fn read_etype(word: &str) -> Option<Etype>
    ensures { result ≡ etype_of word.now }
{
    match parse_decimal(word, 18) {
        Some(number) => Etype::from_number(number as i32),
        None => None,
    }
}

fn read_rounds(word: &str) -> Option<u32>
    ensures value { result ≡ rounds_of word.now }
    ensures some { IfSome result (λ n. 1 ≤ n) }
{
    match parse_decimal(word, MAX_ROUNDS) {
        Some(0) | None => None,
        Some(rounds) => Some(rounds as u32),
    }
}
