//! What is done over a directory, and its outcome.
ghost use Rattle.std.specs.Prelude.{◌≡◌, ◌≢◌, ◌<◌, ◌≤◌, Err, IfOk, IfErr, IfSome, length, true, false};
ghost use Rattle.kdc_prelude.specs.Causes.{Rose};
ghost use Rattle.kdc_commands.specs.Inputs.{InputFailed, SendsNothing, input_of};
ghost use Rattle.kdc_commands.specs.Outcomes.{is_fault};
ghost use Rattle.kdc_commands.specs.Replies.{outcome_of_reply};
ghost use Rattle.kdc_commands.specs.Runs.{AcceptingFailed, DirectoryRefused, ReadingFailed, is_task_status, outcome_over, with_input, with_task};

use crate::ask::answers;
use crate::input::read_input;
use crate::load::{Loaded, load};
use crate::reply::Reply;
use crate::stop::Stop;
use crate::words::Task;
use dir_core::Directory;
use kb_base::{DeviceFault, Door, ReadEnd, Source};
use std::alloc::Global;
use ticket_explain::{ExplainFault, explain};

/// The longest input, in bytes.
const MAX_INPUT: usize = 1_048_576;

/// Reads the directory, then the input, and does the task.
pub fn do_task<D: Source, L: Door>(
    alloc: Global,
    task: Task,
    dir: &mut D,
    door: &mut L,
) -> Result<Reply, Stop>
    ensures answer { IfOk result (λ reply. IfSome (outcome_over task (D.left dir.old) (input_of (L.callers door.old))) (λ outcome. outcome ≡ outcome_of_reply reply)) }
    ensures status { IfOk result (λ reply. is_task_status task reply.status ≡ true) }
    ensures no_fault { IfOk result (λ reply. is_fault reply.status ≡ false) }
    ensures refused { IfOk result (λ reply. reply.status ≡ 4 → DirectoryRefused (D.left dir.old)) }
    ensures unsent { SendsNothing (L.callers door.old) (L.callers door.new) }
    ensures cause { result ≡ Err Stop.Reading → ReadingFailed (D.left dir.old) (Rose (D.faults dir.old) (D.faults dir.new)) (InputFailed (L.callers door.old) (L.callers door.new) (Rose (L.faults door.old) (L.faults door.new))) }
    ensures accept_cause { result ≡ Err Stop.Accepting → AcceptingFailed (D.left dir.old) (Rose (L.accept_faults door.old) (L.accept_faults door.new)) }
    ensures dir_fault { D.faults dir.old < D.faults dir.new → result ≡ Err Stop.Reading }
    ensures caller_fault { L.faults door.old < L.faults door.new → result ≡ Err Stop.Reading }
    ensures accept_fault { L.accept_faults door.old < L.accept_faults door.new → result ≡ Err Stop.Accepting }
{
    match load(alloc, dir)? {
        Loaded::Refused(refusal) => Ok(Reply::refused(alloc, refusal)?),
        Loaded::Directory(dir) => do_over(alloc, task, &dir, door),
    }
}

fn do_over<L: Door>(alloc: Global, task: Task, dir: &Directory, door: &mut L) -> Result<Reply, Stop>
    ensures answer { IfOk result (λ reply. IfSome (input_of (L.callers door.old)) (λ bytes. with_input task dir.now bytes ≡ outcome_of_reply reply)) }
    ensures status { IfOk result (λ reply. is_task_status task reply.status ≡ true) }
    ensures no_fault { IfOk result (λ reply. is_fault reply.status ≡ false) }
    ensures not_refused { IfOk result (λ reply. reply.status ≢ 4) }
    ensures accept_cause { result ≡ Err Stop.Accepting → Rose (L.accept_faults door.old) (L.accept_faults door.new) }
    ensures accept_fault { L.accept_faults door.old < L.accept_faults door.new → result ≡ Err Stop.Accepting }
    ensures unsent { SendsNothing (L.callers door.old) (L.callers door.new) }
    ensures cause { result ≡ Err Stop.Reading → InputFailed (L.callers door.old) (L.callers door.new) (Rose (L.faults door.old) (L.faults door.new)) }
    ensures fault { L.faults door.old < L.faults door.new → result ≡ Err Stop.Reading }
{
    match read_input(alloc, door, MAX_INPUT)? {
        ReadEnd::TooLong => Ok(Reply::line(alloc, 14, b"input too long")?),
        ReadEnd::Whole(bytes) => Ok(do_with(alloc, task, dir, bytes.as_slice())?),
    }
}

fn do_with(alloc: Global, task: Task, dir: &Directory, input: &[u8]) -> Result<Reply, DeviceFault>
    requires { length input.now ≤ 1048576 }
    ensures answer { IfOk result (λ reply. with_task task dir.now input.now ≡ outcome_of_reply reply) }
    ensures status { IfOk result (λ reply. is_task_status task reply.status ≡ true) }
    ensures no_fault { IfOk result (λ reply. is_fault reply.status ≡ false) }
    ensures not_refused { IfOk result (λ reply. reply.status ≢ 4) }
    ensures memory { IfErr result (λ fault. fault ≡ DeviceFault.NoMemory) }
{
    match task {
        Task::Ask => Ok(Reply {
            status: 0,
            text: answers(alloc, dir, input)?,
        }),
        Task::Explain => explain_ticket(alloc, dir, input),
    }
}

fn explain_ticket(alloc: Global, dir: &Directory, input: &[u8]) -> Result<Reply, DeviceFault>
    requires { length input.now ≤ 1048576 }
    ensures answer { IfOk result (λ reply. with_task Task.Explain dir.now input.now ≡ outcome_of_reply reply) }
    ensures status { IfOk result (λ reply. is_task_status Task.Explain reply.status ≡ true) }
    ensures no_fault { IfOk result (λ reply. is_fault reply.status ≡ false) }
    ensures not_refused { IfOk result (λ reply. reply.status ≢ 4) }
    ensures memory { IfErr result (λ fault. fault ≡ DeviceFault.NoMemory) }
{
    match explain(alloc, dir, input) {
        Ok(text) => Ok(Reply {
            status: 0,
            text: Vec::from_slice(alloc, text.as_str().as_bytes())?,
        }),
        Err(ExplainFault::NoMemory) => Err(DeviceFault::NoMemory),
        Err(ExplainFault::Deny(rule)) => {
            let mut text = Vec::from_slice(alloc, b"refused ")?;
            text.extend_from_slice(rule.name().as_bytes())?;
            Reply::line(alloc, 10, text.as_slice())
        }
    }
}
