//! Serving callers.
ghost use Rattle.std.specs.Prelude.{◌≡◌, ◌≤◌, IfErr, IfOk, IfSome};
ghost use Rattle.kb_base.specs.Callers.{TakesCaller};
ghost use Rattle.kdc_run.specs.Causes.{HasCount, is_changes, is_door, is_entropy, is_out};
ghost use Rattle.kdc_run.specs.Chained.{HasChains, KeepsChains};
ghost use Rattle.kdc_run.specs.Runs.{RunsOver};
ghost use Rattle.kdc_run.specs.Worlds.{Known, world};

use crate::caller::serve_caller;
use crate::served::{RunFault, Served};
use dir_core::Directory;
use history_laws::runs_keep_chains;
use kb_base::{Changes, Clock, Door, Entropy, Sink};
use std::alloc::Global;

/// Serves so many callers, one after the other, or as many as there are. For each frame, in order: the changes are taken and
/// applied, 64 random octets drawn, the clock read, the request answered, the reply sent, and a note written.
///
/// # Errors
/// Each fault but `NoMemory` comes only where that device failed; `Door` where no caller could be taken in.
pub fn serve<G: Changes, L: Door, C: Clock, E: Entropy, O: Sink>(
    alloc: Global,
    dir: &mut Directory,
    changes: &mut G,
    door: &mut L,
    clock: &mut C,
    entropy: &mut E,
    out: &mut O,
    callers: u64,
) -> Result<Served, RunFault>
    requires { callers ≤ 1000000 }
    ensures run { Known (RunsOver callers result) (world (L.callers door.old) (G.batches changes.old) (C.moments clock.old) (E.blocks entropy.old) dir.old (O.held out.old)) (world (L.callers door.new) (G.batches changes.new) (C.moments clock.new) (E.blocks entropy.new) dir.new (O.held out.new)) }
    // Each entry of the run's history goes back, step by permitted step, to the first grant of its user, unless it is tainted.
    ensures chains { IfSome (world (L.callers door.old) (G.batches changes.old) (C.moments clock.old) (E.blocks entropy.old) dir.old (O.held out.old)) HasChains }
    ensures within { IfOk result (λ served. served.callers ≤ callers) }
    ensures changes { HasCount is_changes (G.faults changes.old) (G.faults changes.new) result }
    ensures entropy { HasCount is_entropy (E.faults entropy.old) (E.faults entropy.new) result }
    ensures out { HasCount is_out (O.faults out.old) (O.faults out.new) result }
    ensures accept { HasCount is_door (L.accept_faults door.old) (L.accept_faults door.new) result }
{
    keeps_chains(dir);
    let mut requests = 0;
    for count in 0..callers {
        if !take_caller(door)? {
            return Ok(Served {
                callers: count,
                requests,
            });
        }
        requests += serve_caller(alloc, dir, changes, door, clock, entropy, out)?;
    }
    Ok(Served { callers, requests })
}

/// Tells that the history of a run over this directory is chained.
fn keeps_chains(dir: &Directory)
    ensures { KeepsChains dir.now }
{
    dir.keeps_directory();
    runs_keep_chains();
}

/// Leaves the current caller and takes the next one; tells whether there is one.
fn take_caller<L: Door>(door: &mut L) -> Result<bool, RunFault>
    ensures caller { TakesCaller (L.callers door.old) (L.callers door.new) result }
    ensures accept { HasCount is_door (L.accept_faults door.old) (L.accept_faults door.new) result }
    ensures fault { IfErr result (λ fault. fault ≡ RunFault.Door) }
{
    match door.next_caller() {
        Ok(more) => Ok(more),
        Err(_) => Err(RunFault::Door),
    }
}
