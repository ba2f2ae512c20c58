//! The top call: all that the program does.
ghost use Rattle.std.specs.Prelude.{◌≡◌, ◌<◌, IfSome, false, map, string_bytes, true};
ghost use Rattle.kdc_prelude.specs.Causes.{Rose};
ghost use Rattle.kdc_commands.specs.Devices.{Uses, devices};
ghost use Rattle.kdc_commands.specs.Inputs.{InputFailed, input_of};
ghost use Rattle.kdc_commands.specs.Runs.{AcceptingFailed, DirectoryRefused, FailsToRead, Prints, is_serving, is_status, outcome_by};
ghost use Rattle.kdc_commands.specs.Words.{command_of};

use crate::job::do_job;
use crate::serving::serve_over;
use crate::words::{Command, read_command};
use kb_base::{Changes, Clock, Door, Entropy, Sink, Source};
use std::alloc::Global;

/// Does what the words after the program's name ask for, over the text of the directory, its changes, callers, the time and
/// random octets, and prints to `out`. `ask` and `explain` read the first caller's bytes; `answer` and `serve` serve callers,
/// and print notes.
///
/// # Status
/// 0: all was done. 2: bad words. 3: memory is wanted. 4: the directory is refused. 5: `dir` failed, or the connection of the
/// caller whose bytes `ask` or `explain` reads. 6: `out` failed. 7: `entropy` failed. 8: `changes` failed. 9: no caller can be accepted.
/// 10: the ticket is refused. 14: the input is too long.
pub fn run_words<D: Source, G: Changes, L: Door, C: Clock, E: Entropy, O: Sink>(
    alloc: Global,
    words: &[String],
    dir: &mut D,
    changes: &mut G,
    door: &mut L,
    clock: &mut C,
    entropy: &mut E,
    out: &mut O,
) -> u8
    // The status and what is printed are those of the words, the text of the directory and the input.
    ensures answer { IfSome (outcome_by (command_of (map string_bytes words.now)) (D.left dir.old) (input_of (L.callers door.old))) (Prints (O.held out.old) (O.held out.new) result) }
    // Where callers are served, they are served as the run over the directory of the text has it, and each entry of the run's history
    // that is not tainted goes back to the first grant of its user; else none is sent anything.
    ensures devices { Uses (command_of (map string_bytes words.now)) (D.left dir.old) result (devices (L.callers door.old) (G.batches changes.old) (C.moments clock.old) (E.blocks entropy.old) (O.held out.old)) (devices (L.callers door.new) (G.batches changes.new) (C.moments clock.new) (E.blocks entropy.new) (O.held out.new)) }

    // Whatever the devices tell of their contents:
    ensures status { is_status (command_of (map string_bytes words.now)) result ≡ true }
    ensures refused { result ≡ 4 → DirectoryRefused (D.left dir.old) }
    ensures read_fault { result ≡ 5 → FailsToRead (is_serving (command_of (map string_bytes words.now))) (D.left dir.old) (Rose (D.faults dir.old) (D.faults dir.new)) (InputFailed (L.callers door.old) (L.callers door.new) (Rose (L.faults door.old) (L.faults door.new))) }
    ensures write_fault { result ≡ 6 → Rose (O.faults out.old) (O.faults out.new) }
    ensures no_random { result ≡ 7 → Rose (E.faults entropy.old) (E.faults entropy.new) }
    ensures no_changes { result ≡ 8 → Rose (G.faults changes.old) (G.faults changes.new) }
    ensures no_caller { result ≡ 9 → AcceptingFailed (D.left dir.old) (Rose (L.accept_faults door.old) (L.accept_faults door.new)) }

    // A fault that came is told; that of a caller who is served is its own alone.
    ensures dir_fault { D.faults dir.old < D.faults dir.new → result ≡ 5 }
    ensures caller_fault { is_serving (command_of (map string_bytes words.now)) ≡ false → L.faults door.old < L.faults door.new → result ≡ 5 }
    ensures out_fault { O.faults out.old < O.faults out.new → result ≡ 6 }
    ensures entropy_fault { E.faults entropy.old < E.faults entropy.new → result ≡ 7 }
    ensures changes_fault { G.faults changes.old < G.faults changes.new → result ≡ 8 }
    ensures accept_fault { L.accept_faults door.old < L.accept_faults door.new → result ≡ 9 }
{
    match read_command(alloc, words) {
        Err(_) => 3,
        Ok(None) => do_job(alloc, None, dir, door, out),
        Ok(Some(Command::Print(job))) => do_job(alloc, Some(job), dir, door, out),
        Ok(Some(Command::Serve(callers))) => {
            serve_over(alloc, callers, dir, changes, door, clock, entropy, out)
        }
    }
}
