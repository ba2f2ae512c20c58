//! Serving callers over a directory.
ghost use Rattle.std.specs.Prelude.{◌≡◌, ◌≢◌, ◌≤◌, ◌<◌, ◌==◌, ◌||◌, IfSome, Some, true};
ghost use Rattle.kdc_prelude.specs.Causes.{Rose};
ghost use Rattle.kdc_commands.specs.Devices.{Serves, devices};
ghost use Rattle.kdc_commands.specs.Outcomes.{one_line};
ghost use Rattle.kdc_commands.specs.Refusals.{refusal_text};
ghost use Rattle.kdc_commands.specs.Runs.{AcceptingFailed, DirectoryRefused, Prints, is_status, refused_outcome};
ghost use Rattle.kdc_commands.specs.Stops.{fault_status};
ghost use Rattle.kdc_commands.specs.declared.words.Command.TheVariants.{Serve};

use crate::load::{Loaded, load};
use crate::reply::Reply;
use dir_core::DirRefusal;
use kb_base::{Changes, Clock, DeviceFault, Door, Entropy, Sink, Source, write_whole};
use kdc_run::{RunFault, serve};
use std::alloc::Global;

/// Serves so many callers over the directory of a text.
pub fn serve_over<D: Source, G: Changes, L: Door, C: Clock, E: Entropy, O: Sink>(
    alloc: Global,
    callers: u64,
    dir: &mut D,
    changes: &mut G,
    door: &mut L,
    clock: &mut C,
    entropy: &mut E,
    out: &mut O,
) -> u8
    requires { callers ≤ 1000000 }
    ensures answer { IfSome (refused_outcome (D.left dir.old)) (Prints (O.held out.old) (O.held out.new) result) }
    ensures devices { Serves callers (D.left dir.old) result (devices (L.callers door.old) (G.batches changes.old) (C.moments clock.old) (E.blocks entropy.old) (O.held out.old)) (devices (L.callers door.new) (G.batches changes.new) (C.moments clock.new) (E.blocks entropy.new) (O.held out.new)) }
    ensures refused { result ≡ 4 → DirectoryRefused (D.left dir.old) }
    ensures status { is_status (Some (Serve callers)) result ≡ true }
    ensures read_fault { result ≡ 5 → Rose (D.faults dir.old) (D.faults dir.new) }
    ensures write_fault { result ≡ 6 → Rose (O.faults out.old) (O.faults out.new) }
    ensures no_random { result ≡ 7 → Rose (E.faults entropy.old) (E.faults entropy.new) }
    ensures no_changes { result ≡ 8 → Rose (G.faults changes.old) (G.faults changes.new) }
    ensures no_caller { result ≡ 9 → AcceptingFailed (D.left dir.old) (Rose (L.accept_faults door.old) (L.accept_faults door.new)) }
    ensures dir_fault { D.faults dir.old < D.faults dir.new → result ≡ 5 }
    ensures out_fault { O.faults out.old < O.faults out.new → result ≡ 6 }
    ensures entropy_fault { E.faults entropy.old < E.faults entropy.new → result ≡ 7 }
    ensures changes_fault { G.faults changes.old < G.faults changes.new → result ≡ 8 }
    ensures accept_fault { L.accept_faults door.old < L.accept_faults door.new → result ≡ 9 }
{
    match load(alloc, dir) {
        Err(DeviceFault::NoMemory) => 3,
        Err(DeviceFault::Failed) => 5,
        Ok(Loaded::Refused(refusal)) => print_refusal(alloc, refusal, out),
        Ok(Loaded::Directory(mut dir)) => {
            match serve(alloc, &mut dir, changes, door, clock, entropy, out, callers) {
                Ok(_) => 0,
                Err(fault) => fault_status(fault),
            }
        }
    }
}

/// Prints why the directory is refused.
fn print_refusal<O: Sink>(alloc: Global, refusal: DirRefusal, out: &mut O) -> u8
    ensures printed { Prints (O.held out.old) (O.held out.new) result (one_line 4 (refusal_text refusal)) }
    ensures status { (result == 3 || result == 4 || result == 6) ≡ true }
    ensures write_fault { result ≡ 6 → Rose (O.faults out.old) (O.faults out.new) }
    ensures out_fault { O.faults out.old < O.faults out.new → result ≡ 6 }
{
    match Reply::refused(alloc, refusal) {
        Err(_) => 3,
        Ok(reply) => match write_whole(out, reply.text.as_slice()) {
            Err(DeviceFault::NoMemory) => 3,
            Err(DeviceFault::Failed) => 6,
            Ok(()) => 4,
        },
    }
}

/// The program's status after a fault of a run over callers.
fn fault_status(fault: RunFault) -> u8
    ensures value { result ≡ fault_status fault }
    ensures not_refused { result ≢ 4 }
{
    match fault {
        RunFault::NoMemory => 3,
        RunFault::Out => 6,
        RunFault::Entropy => 7,
        RunFault::Changes => 8,
        RunFault::Door => 9,
    }
}
