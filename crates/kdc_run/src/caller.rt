//! A caller, from its first frame until it is left.
ghost use Rattle.std.specs.Prelude.{◌≡◌, ◌≤◌, ◌-◌, IfErr, IfOk};
ghost use Rattle.kdc_frames.specs.Requests.{leave_after_long};
ghost use Rattle.kdc_run.specs.Causes.{HasCount, IsServing, is_changes, is_entropy, is_out};
ghost use Rattle.kdc_run.specs.Talks.{EndsTalk, TalksOver};
ghost use Rattle.kdc_run.specs.Worlds.{Known, Talks, world};

use crate::notes::write_leave;
use crate::served::RunFault;
use crate::turn::{Turn, take_turn};
use dir_core::Directory;
use kb_base::{Changes, Clock, Door, Entropy, Sink};
use kdc_frames::Leave;
use std::alloc::Global;

/// How many requests of a caller are answered.
const BUDGET: u64 = 10_000;

/// A caller that is done with: how many of its requests were answered, and why it is left before its end.
#[derive(Clone, Copy, Debug, PartialEq, Eq)]
pub(crate) struct Talk {
    pub(crate) requests: u64,
    pub(crate) leave: Option<Leave>,
}

/// Serves the current caller, and writes the note that it is left, where it is left before its end. Tells how many requests
/// were answered.
pub(crate) fn serve_caller<G: Changes, L: Door, C: Clock, E: Entropy, O: Sink>(
    alloc: Global,
    dir: &mut Directory,
    changes: &mut G,
    door: &mut L,
    clock: &mut C,
    entropy: &mut E,
    out: &mut O,
) -> Result<u64, RunFault>
    ensures talk { Known (Talks (EndsTalk result)) (world (L.callers door.old) (G.batches changes.old) (C.moments clock.old) (E.blocks entropy.old) dir.old (O.held out.old)) (world (L.callers door.new) (G.batches changes.new) (C.moments clock.new) (E.blocks entropy.new) dir.new (O.held out.new)) }
    ensures within { IfOk result (λ requests. requests ≤ 10000) }
    ensures kind { IfErr result IsServing }
    ensures changes { HasCount is_changes (G.faults changes.old) (G.faults changes.new) result }
    ensures entropy { HasCount is_entropy (E.faults entropy.old) (E.faults entropy.new) result }
    ensures out { HasCount is_out (O.faults out.old) (O.faults out.new) result }
    ensures accept { L.accept_faults door.new ≡ L.accept_faults door.old }
{
    let talk = serve_requests(alloc, dir, changes, door, clock, entropy, out)?;
    write_leave(alloc, out, talk.leave)?;
    Ok(talk.requests)
}

/// Serves the requests of the current caller.
fn serve_requests<G: Changes, L: Door, C: Clock, E: Entropy, O: Sink>(
    alloc: Global,
    dir: &mut Directory,
    changes: &mut G,
    door: &mut L,
    clock: &mut C,
    entropy: &mut E,
    out: &mut O,
) -> Result<Talk, RunFault>
    ensures talk { Known (Talks (TalksOver result)) (world (L.callers door.old) (G.batches changes.old) (C.moments clock.old) (E.blocks entropy.old) dir.old (O.held out.old)) (world (L.callers door.new) (G.batches changes.new) (C.moments clock.new) (E.blocks entropy.new) dir.new (O.held out.new)) }
    ensures within { IfOk result (λ talk. talk.requests ≤ 10000) }
    ensures kind { IfErr result IsServing }
    ensures changes { HasCount is_changes (G.faults changes.old) (G.faults changes.new) result }
    ensures entropy { HasCount is_entropy (E.faults entropy.old) (E.faults entropy.new) result }
    ensures out { HasCount is_out (O.faults out.old) (O.faults out.new) result }
    ensures accept { L.accept_faults door.new ≡ L.accept_faults door.old }
{
    for count in 0..BUDGET {
        match take_turn(alloc, dir, changes, door, clock, entropy, out)? {
            Turn::Answered => {}
            Turn::Ended => return Ok(done(count, None)),
            Turn::Broken => return Ok(done(count, Some(Leave::FrameCut))),
            Turn::Failed => return Ok(done(count, Some(Leave::Fault))),
            Turn::AnsweredLong => {
                return Ok(done(count + 1, Some(leave_after_long(BUDGET - 1 - count))));
            }
            Turn::Unsent => return Ok(done(count + 1, Some(Leave::Fault))),
        }
    }
    Ok(done(BUDGET, Some(Leave::Budget)))
}

fn done(requests: u64, leave: Option<Leave>) -> Talk
    ensures { result ≡ record { requests = requests; leave = leave } }
{
    Talk { requests, leave }
}

/// Why a caller is left after a frame that is too long, where so many more requests were within the budget.
fn leave_after_long(more: u64) -> Leave
    ensures { result ≡ leave_after_long more }
{
    if more == 0 {
        Leave::Budget
    } else {
        Leave::FrameTooLong
    }
}
