//! A run over devices in memory, and what comes out.
ghost use Rattle.std.specs.Prelude.{◌≡◌, ◌<◌, ◌↔◌, [], IfOk, IfSome, Some, map, string_bytes};
ghost use Rattle.kdc_commands.specs.Inputs.{input_of};
ghost use Rattle.kdc_commands.specs.Runs.{Prints, outcome_by};
ghost use Rattle.kdc_commands.specs.Words.{command_of};
ghost use Rattle.kdc_replay.specs.Waiting.{waiting};

use crate::octets::spell;
use crate::script::Script;
use kb_base::{MemChanges, MemClock, MemDoor, MemEntropy, MemSink, MemSource};
use kdc_commands::run_words;
use krb_names::Moment;
use std::alloc::{AllocError, Global};
use std::io;

/// What a run ended with, the sink that it printed to, and the door with its callers.
#[derive(Drop)]
pub struct Report {
    pub status: u8,
    pub out: MemSink,
    pub door: MemDoor,
    /// How many callers there were.
    pub callers: usize,
}

/// Runs what was given.
pub fn replay(alloc: Global, script: Script) -> Result<Report, AllocError>
    ensures answer { IfOk result (λ report. IfSome (outcome_by (command_of (map string_bytes script.words)) (Some script.dir) (input_of (Some (waiting script.callers)))) (Prints (Some []) (Some report.out.held) report.status)) }
    ensures write_fault { IfOk result (λ report. (report.status ≡ 6) ↔ (0 < report.out.faults)) }
{
    let Script {
        words,
        dir,
        batches,
        callers,
        moments,
        blocks,
        fails,
        ..
    } = script;
    let count = callers.len();
    let mut dir = MemSource::new(alloc, dir, fails.dir);
    let mut changes = MemChanges::new(alloc, batches.into_vec(), fails.changes);
    let mut door = MemDoor::new(alloc, callers.into_vec(), fails.door)?;
    let mut clock = clock(alloc, moments.into_vec())?;
    let mut entropy = MemEntropy::new(alloc, blocks.into_vec(), fails.entropy);
    let mut out = MemSink::new(alloc, fails.out);
    let status = run_words(
        alloc,
        words.as_slice(),
        &mut dir,
        &mut changes,
        &mut door,
        &mut clock,
        &mut entropy,
        &mut out,
    );
    Ok(Report {
        status,
        out,
        door,
        callers: count,
    })
}

/// A clock of these moments; of none, one that stands at 2023-11-14T22:13:20.
fn clock(alloc: Global, moments: Vec<Moment>) -> Result<MemClock, AllocError> {
    let mut moments = moments;
    if moments.is_empty() {
        moments.push(Moment {
            secs: 1_700_000_000,
            micros: 0,
        })?;
    }
    Ok(MemClock::new(alloc, moments))
}

/// Prints the status, what was printed, what each caller was sent, and `end`.
pub fn print(rt: &(impl Print + AllocGlobal), report: &Report) -> io::Result<()> {
    println!(rt; "status {}", report.status)?;
    println!(rt; "out {}", spell(rt.alloc(), report.out.as_slice())?)?;
    for index in 0..report.callers {
        let sent = match report.door.sent(index) {
            Some(sent) => spell(rt.alloc(), sent)?,
            None => spell(rt.alloc(), &[])?,
        };
        println!(rt; "sent {}", sent)?;
    }
    println!(rt; "end")
}
