//! Taking the changes.
ghost use Rattle.std.specs.Prelude.{◌≡◌, ◌<◌, ◌^◌, ◌↔◌, IfErr, IsTrue, OnErr, length};
ghost use Rattle.dir_records.specs.WellFormed.{no_memory};
ghost use Rattle.kdc_run.specs.Causes.{HasCount, IsTaking, IsWriting, is_changes, is_out};
ghost use Rattle.kdc_run.specs.Requests.{AppliesBatch, AppliesNext};
ghost use Rattle.kdc_run.specs.Worlds.{Known};

use crate::notes::write_refusal;
use crate::served::RunFault;
use change_lines::apply_changes;
use dir_core::Directory;
use dir_records::{DirCause, DirPlace, DirRefusal};
use kb_base::{Changes, DeviceFault, Sink};
use std::alloc::Global;

/// Takes the next batch of changes and applies it. One that is refused changes nothing, and its note is written.
pub(crate) fn take_changes<G: Changes, O: Sink>(
    alloc: Global,
    dir: &mut Directory,
    changes: &mut G,
    out: &mut O,
) -> Result<(), RunFault>
    ensures next { Known (AppliesNext dir.old dir.new (O.held out.old) (O.held out.new) result) (G.batches changes.old) (G.batches changes.new) }
    ensures err { OnErr result (dir.new ≡ dir.old) }
    ensures kind { IfErr result IsTaking }
    ensures changes { HasCount is_changes (G.faults changes.old) (G.faults changes.new) result }
    ensures out { HasCount is_out (O.faults out.old) (O.faults out.new) result }
{
    let batch = match changes.take() {
        Ok(batch) => batch,
        Err(DeviceFault::Failed) => return Err(RunFault::Changes),
        Err(DeviceFault::NoMemory) => return Err(RunFault::NoMemory),
    };
    apply_batch(alloc, dir, batch.as_slice(), out)
}

/// Applies a batch of changes, or writes the note that it is refused.
fn apply_batch<O: Sink>(
    alloc: Global,
    dir: &mut Directory,
    batch: &[u8],
    out: &mut O,
) -> Result<(), RunFault>
    requires { length batch.now < 2 ^ 32 }
    ensures batch { AppliesBatch batch.now dir.old dir.new (O.held out.old) (O.held out.new) result }
    ensures err { OnErr result (dir.new ≡ dir.old) }
    ensures kind { IfErr result IsWriting }
    ensures out { HasCount is_out (O.faults out.old) (O.faults out.new) result }
{
    match apply_changes(alloc, dir, batch) {
        Ok(()) => Ok(()),
        Err(refusal) => {
            if is_want_of_memory(refusal) {
                return Err(RunFault::NoMemory);
            }
            write_refusal(alloc, out, refusal)
        }
    }
}

fn is_want_of_memory(refusal: DirRefusal) -> bool
    ensures { IsTrue result ↔ (refusal ≡ no_memory) }
{
    refusal
        == DirRefusal {
            cause: DirCause::NoMemory,
            place: DirPlace::Whole,
        }
}
