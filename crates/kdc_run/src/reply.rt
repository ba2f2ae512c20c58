//! Answering a request, and sending the reply.
ghost use Rattle.std.specs.Prelude.{◌≡◌, ◌<◌, ◌^◌, IfErr, IfOk, length};
ghost use Rattle.kdc_frames.specs.Frames.{frame};
ghost use Rattle.kdc_frames.specs.Moves.{Moves};
ghost use Rattle.kdc_frames.specs.Pieces.{IsShort};
ghost use Rattle.kdc_frames.specs.Requests.{request_bytes};
ghost use Rattle.kdc_run.specs.Causes.{HasCount, IsAnswering, is_entropy};
ghost use Rattle.kdc_run.specs.Requests.{AnswersNext, SendsReply};
ghost use Rattle.kdc_run.specs.Worlds.{Known};
ghost use Rattle.tgs_core.specs.Answers.{answered_to};

use crate::served::RunFault;
use dir_core::Directory;
use kb_base::{Clock, DeviceFault, Door, Entropy};
use kdc_frames::{Request, send_frame};
use krb_names::Moment;
use std::alloc::{AllocError, Global};
use tgs_core::{Answered, answer, answer_long};

/// Draws 64 random octets, reads the clock, and answers the request with both.
pub(crate) fn answer_next<C: Clock, E: Entropy>(
    alloc: Global,
    dir: &Directory,
    clock: &mut C,
    entropy: &mut E,
    request: &Request,
) -> Result<Answered, RunFault>
    requires { IsShort request.now }
    ensures next { Known (λ moments left. Known (AnswersNext dir.now (request_bytes request.now) result moments left) (E.blocks entropy.old) (E.blocks entropy.new)) (C.moments clock.old) (C.moments clock.new) }
    ensures short { IfOk result (λ made. length made.reply < 2 ^ 32) }
    ensures kind { IfErr result IsAnswering }
    ensures entropy { HasCount is_entropy (E.faults entropy.old) (E.faults entropy.new) result }
{
    let mut block = [0u8; 64];
    match entropy.fill(&mut block) {
        Ok(()) => {}
        Err(_) => return Err(RunFault::Entropy),
    }
    let now = clock.now();
    match answer_request(alloc, dir, now, &block, request) {
        Ok(made) => Ok(made),
        Err(_) => Err(RunFault::NoMemory),
    }
}

/// Answers a request at a moment, with 64 random octets.
fn answer_request(
    alloc: Global,
    dir: &Directory,
    now: Moment,
    random: &[u8; 64],
    request: &Request,
) -> Result<Answered, AllocError>
    requires { IsShort request.now }
    ensures exact { IfOk result (λ made. made ≡ answered_to dir.now now random.now (request_bytes request.now)) }
    ensures short { IfOk result (λ made. length made.reply < 2 ^ 32) }
{
    match request {
        Request::Whole(message) => answer(alloc, dir, now, random, message.as_slice()),
        Request::TooLong => answer_long(alloc, dir, now),
    }
}

/// Sends a reply in its frame, and tells whether it was sent whole: not where the caller's connection failed.
pub(crate) fn send_reply<L: Door>(door: &mut L, reply: &[u8]) -> Result<bool, RunFault>
    requires { length reply.now < 2 ^ 32 }
    ensures sent { Moves (SendsReply (frame reply.now) result) (L.callers door.old) (L.callers door.new) }
    ensures memory { IfErr result (λ fault. fault ≡ RunFault.NoMemory) }
    ensures accept { L.accept_faults door.new ≡ L.accept_faults door.old }
{
    match send_frame(door, reply) {
        Ok(()) => Ok(true),
        Err(DeviceFault::Failed) => Ok(false),
        Err(DeviceFault::NoMemory) => Err(RunFault::NoMemory),
    }
}
