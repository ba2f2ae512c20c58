//! Serving a request.
ghost use Rattle.std.specs.Prelude.{◌≡◌, IfErr};
ghost use Rattle.kdc_frames.specs.Pieces.{IsShort};
ghost use Rattle.kdc_frames.specs.Requests.{request_bytes};
ghost use Rattle.kdc_run.specs.Causes.{HasCount, IsServing, is_changes, is_entropy, is_out};
ghost use Rattle.kdc_run.specs.Requests.{ServesRequest};
ghost use Rattle.kdc_run.specs.Worlds.{Known, Talks, world};

use crate::changes::take_changes;
use crate::notes::write_note;
use crate::reply::{answer_next, send_reply};
use crate::served::RunFault;
use dir_core::Directory;
use kb_base::{Changes, Clock, Door, Entropy, Sink};
use kdc_frames::Request;
use std::alloc::Global;

/// Serves a request: takes the changes, draws a block, reads the clock, answers, sends the reply, and writes the note. Tells
/// whether the reply was sent whole.
pub(crate) fn serve_request<G: Changes, L: Door, C: Clock, E: Entropy, O: Sink>(
    alloc: Global,
    dir: &mut Directory,
    changes: &mut G,
    door: &mut L,
    clock: &mut C,
    entropy: &mut E,
    out: &mut O,
    request: &Request,
) -> Result<bool, RunFault>
    requires { IsShort request.now }
    ensures served { Known (Talks (ServesRequest (request_bytes request.now) result)) (world (L.callers door.old) (G.batches changes.old) (C.moments clock.old) (E.blocks entropy.old) dir.old (O.held out.old)) (world (L.callers door.new) (G.batches changes.new) (C.moments clock.new) (E.blocks entropy.new) dir.new (O.held out.new)) }
    ensures kind { IfErr result IsServing }
    ensures changes { HasCount is_changes (G.faults changes.old) (G.faults changes.new) result }
    ensures entropy { HasCount is_entropy (E.faults entropy.old) (E.faults entropy.new) result }
    ensures out { HasCount is_out (O.faults out.old) (O.faults out.new) result }
    ensures accept { L.accept_faults door.new ≡ L.accept_faults door.old }
{
    take_changes(alloc, dir, changes, out)?;
    let answered = answer_next(alloc, dir, clock, entropy, request)?;
    let sent = send_reply(door, answered.reply.as_slice())?;
    write_note(alloc, out, answered.note)?;
    Ok(sent)
}
