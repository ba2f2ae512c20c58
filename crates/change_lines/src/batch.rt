//! Batches of change lines.
ghost use Rattle.std.specs.Prelude.{◌≡◌, ◌≢◌, ◌<◌, ◌^◌, length, map, Err, OnErr};
ghost use Rattle.dir_records.specs.WellFormed.{no_memory};
ghost use Rattle.change_lines.specs.Batches.{Becomes, after, at_line, batch_outcome, line_after, lines_after};

use crate::line::read_change;
use crate::lines::split_lines;
use dir_core::Directory;
use dir_records::{DirCause, DirPlace, DirRefusal};
use std::alloc::{AllocError, Global};

/// Makes the changes of all lines, in their order, or none of them. Each line ends with a newline, and the last one may
/// lack it; empty lines are counted and change nothing.
///
/// # Errors
/// The cause of the first line that is refused, with its number from 1: `BadField` where it says no change, else what
/// `Directory::change` refuses. `NoMemory` at the whole. An `Err` changes nothing.
#[tactic(auto, unfolding(crate::specs::Batches::after, crate::specs::Batches::batch_outcome))]
pub fn apply_changes(alloc: Global, dir: &mut Directory, lines: &[u8]) -> Result<(), DirRefusal>
    requires { length lines.now < 2 ^ 32 }
    ensures outcome { Becomes no_memory result dir.new (batch_outcome dir.old lines.now) }
    ensures err { OnErr result (dir.new ≡ dir.old) }
    ensures after { result ≢ Err no_memory → dir.new ≡ after dir.old lines.now }
{
    if lines.is_empty() {
        return Ok(());
    }
    let lines = split_lines(alloc, lines)?;
    let mut changed = dir.try_clone()?;
    apply_lines(alloc, &mut changed, lines.as_slice())?;
    *dir = changed;
    Ok(())
}

fn apply_lines(alloc: Global, dir: &mut Directory, lines: &[&[u8]]) -> Result<(), DirRefusal>
    requires { length lines.now < 2 ^ 32 }
    ensures { Becomes no_memory result dir.new (lines_after 1 (map (λ line. line.now) lines.now) dir.old) }
{
    let mut n = 0;
    for line in lines {
        n += 1;
        apply_line(alloc, dir, n, line)?;
    }
    Ok(())
}

/// Makes the change of line `n`.
fn apply_line(alloc: Global, dir: &mut Directory, n: u32, line: &[u8]) -> Result<(), DirRefusal>
    ensures { Becomes no_memory result dir.new (at_line n (line_after dir.old line.now)) }
{
    match change_by(alloc, dir, line) {
        Ok(()) => Ok(()),
        Err(DirCause::NoMemory) => Err(DirRefusal::from(AllocError)),
        Err(cause) => Err(DirRefusal {
            cause,
            place: DirPlace::Line(n),
        }),
    }
}

fn change_by(alloc: Global, dir: &mut Directory, line: &[u8]) -> Result<(), DirCause>
    ensures { Becomes DirCause.NoMemory result dir.new (line_after dir.old line.now) }
{
    if line.is_empty() {
        return Ok(());
    }
    let change = read_change(alloc, line)?;
    dir.change(&change)
}
