//! What is done and then printed.
ghost use Rattle.std.specs.Prelude.{◌≡◌, ◌<◌, Err, IfOk, IfSome, MatchResult, false, true};
ghost use Rattle.kdc_prelude.specs.Causes.{Rose};
ghost use Rattle.kdc_commands.specs.Inputs.{InputFailed, SendsNothing, input_of};
ghost use Rattle.kdc_commands.specs.Outcomes.{is_fault};
ghost use Rattle.kdc_commands.specs.Replies.{outcome_of_reply};
ghost use Rattle.kdc_commands.specs.Runs.{AcceptingFailed, DirectoryRefused, Prints, ReadingFailed, is_job_status, job_outcome};
ghost use Rattle.kdc_commands.specs.Stops.{status_of};
ghost use Rattle.kdc_commands.specs.Words.{HasRounds};

use crate::derive::derive;
use crate::reply::Reply;
use crate::stop::Stop;
use crate::task::do_task;
use crate::words::Job;
use kb_base::{DeviceFault, Door, Sink, Source, write_whole};
use std::alloc::Global;

/// Does a job over the text of the directory and the first caller's bytes, and prints its outcome. Without a job the words
/// are bad.
pub fn do_job<D: Source, L: Door, O: Sink>(
    alloc: Global,
    job: Option<Job>,
    dir: &mut D,
    door: &mut L,
    out: &mut O,
) -> u8
    requires { IfSome job HasRounds }
    ensures answer { IfSome (job_outcome job (D.left dir.old) (input_of (L.callers door.old))) (Prints (O.held out.old) (O.held out.new) result) }
    ensures status { is_job_status job result ≡ true }
    ensures refused { result ≡ 4 → DirectoryRefused (D.left dir.old) }
    ensures unsent { SendsNothing (L.callers door.old) (L.callers door.new) }
    ensures read_fault { result ≡ 5 → ReadingFailed (D.left dir.old) (Rose (D.faults dir.old) (D.faults dir.new)) (InputFailed (L.callers door.old) (L.callers door.new) (Rose (L.faults door.old) (L.faults door.new))) }
    ensures write_fault { result ≡ 6 → Rose (O.faults out.old) (O.faults out.new) }
    ensures no_caller { result ≡ 9 → AcceptingFailed (D.left dir.old) (Rose (L.accept_faults door.old) (L.accept_faults door.new)) }
    ensures dir_fault { D.faults dir.old < D.faults dir.new → result ≡ 5 }
    ensures caller_fault { L.faults door.old < L.faults door.new → result ≡ 5 }
    ensures accept_fault { L.accept_faults door.old < L.accept_faults door.new → result ≡ 9 }
    ensures out_fault { O.faults out.old < O.faults out.new → result ≡ 6 }
{
    match judge(alloc, job, dir, door) {
        Err(stop) => stop.status(),
        Ok(reply) => match write_whole(out, reply.text.as_slice()) {
            Err(DeviceFault::NoMemory) => 3,
            Err(DeviceFault::Failed) => 6,
            Ok(()) => reply.status,
        },
    }
}

#[tactic(auto, using(crate::proofs::Statuses::stops_of_tasks))]
fn judge<D: Source, L: Door>(
    alloc: Global,
    job: Option<Job>,
    dir: &mut D,
    door: &mut L,
) -> Result<Reply, Stop>
    requires { IfSome job HasRounds }
    ensures answer { IfOk result (λ reply. IfSome (job_outcome job (D.left dir.old) (input_of (L.callers door.old))) (λ outcome. outcome ≡ outcome_of_reply reply)) }
    ensures status { MatchResult result (λ reply. is_job_status job reply.status ≡ true) (λ stop. is_job_status job (status_of stop) ≡ true) }
    ensures no_fault { IfOk result (λ reply. is_fault reply.status ≡ false) }
    ensures refused { IfOk result (λ reply. reply.status ≡ 4 → DirectoryRefused (D.left dir.old)) }
    ensures unsent { SendsNothing (L.callers door.old) (L.callers door.new) }
    ensures cause { result ≡ Err Stop.Reading → ReadingFailed (D.left dir.old) (Rose (D.faults dir.old) (D.faults dir.new)) (InputFailed (L.callers door.old) (L.callers door.new) (Rose (L.faults door.old) (L.faults door.new))) }
    ensures accept_cause { result ≡ Err Stop.Accepting → AcceptingFailed (D.left dir.old) (Rose (L.accept_faults door.old) (L.accept_faults door.new)) }
    ensures dir_fault { D.faults dir.old < D.faults dir.new → result ≡ Err Stop.Reading }
    ensures caller_fault { L.faults door.old < L.faults door.new → result ≡ Err Stop.Reading }
    ensures accept_fault { L.accept_faults door.old < L.accept_faults door.new → result ≡ Err Stop.Accepting }
{
    match job {
        None => Ok(Reply::line(alloc, 2, b"bad words")?),
        Some(Job::Over(task)) => do_task(alloc, task, dir, door),
        Some(Job::Derive(from)) => Ok(derive(alloc, &from)?),
    }
}
