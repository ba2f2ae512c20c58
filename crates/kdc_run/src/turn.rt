//! A turn with a caller.
ghost use Rattle.std.specs.Prelude.{◌≡◌, IfErr};
ghost use Rattle.kdc_run.specs.Causes.{HasCount, IsServing, is_changes, is_entropy, is_out};
ghost use Rattle.kdc_run.specs.Turns.{TakesTurn, turn_of};
ghost use Rattle.kdc_run.specs.Worlds.{Known, Talks, world};

use crate::request::serve_request;
use crate::served::RunFault;
use dir_core::Directory;
use kb_base::{Changes, Clock, DeviceFault, Door, Entropy, Sink};
use kdc_frames::{Frame, Request, read_frame};
use std::alloc::Global;

/// What a turn with a caller came to.
#[derive(Clone, Copy, Debug, PartialEq, Eq)]
pub(crate) enum Turn {
    /// The caller's bytes ended.
    Ended,
    /// They ended inside a frame.
    Broken,
    /// A read failed.
    Failed,
    /// A request was answered.
    Answered,
    /// A frame that is too long was answered.
    AnsweredLong,
    /// A request was answered, and its reply not sent whole.
    Unsent,
}

/// Reads a frame of the current caller, and serves the request.
pub(crate) fn take_turn<G: Changes, L: Door, C: Clock, E: Entropy, O: Sink>(
    alloc: Global,
    dir: &mut Directory,
    changes: &mut G,
    door: &mut L,
    clock: &mut C,
    entropy: &mut E,
    out: &mut O,
) -> Result<Turn, RunFault>
    ensures turn { Known (Talks (TakesTurn result)) (world (L.callers door.old) (G.batches changes.old) (C.moments clock.old) (E.blocks entropy.old) dir.old (O.held out.old)) (world (L.callers door.new) (G.batches changes.new) (C.moments clock.new) (E.blocks entropy.new) dir.new (O.held out.new)) }
    ensures kind { IfErr result IsServing }
    ensures changes { HasCount is_changes (G.faults changes.old) (G.faults changes.new) result }
    ensures entropy { HasCount is_entropy (E.faults entropy.old) (E.faults entropy.new) result }
    ensures out { HasCount is_out (O.faults out.old) (O.faults out.new) result }
    ensures accept { L.accept_faults door.new ≡ L.accept_faults door.old }
{
    match read_frame(alloc, door) {
        Ok(Frame::End) => Ok(Turn::Ended),
        Ok(Frame::Cut) => Ok(Turn::Broken),
        Ok(Frame::Next(request)) => {
            let sent = serve_request(alloc, dir, changes, door, clock, entropy, out, &request)?;
            Ok(turn_of(&request, sent))
        }
        Err(DeviceFault::Failed) => Ok(Turn::Failed),
        Err(DeviceFault::NoMemory) => Err(RunFault::NoMemory),
    }
}

fn turn_of(request: &Request, sent: bool) -> Turn
    ensures { result ≡ turn_of request.now sent }
{
    if !sent {
        return Turn::Unsent;
    }
    match request {
        Request::Whole(_) => Turn::Answered,
        Request::TooLong => Turn::AnsweredLong,
    }
}
