//! The input of a command: what the first caller sends.
ghost use Rattle.std.specs.Prelude.{◌≡◌, ◌<◌, ◌^◌, Err, IfOk};
ghost use Rattle.kb_base.specs.Faults.{HasDeviceCause};
ghost use Rattle.kb_base.specs.Reading.{ReadsWhole};
ghost use Rattle.kdc_frames.specs.Moves.{Moves};
ghost use Rattle.kdc_prelude.specs.Causes.{Rose};
ghost use Rattle.kdc_commands.specs.Inputs.{Hears, InputFailed, SendsNothing, current_left, input_of};

use crate::stop::Stop;
use kb_base::{DeviceFault, Door, ReadEnd};
use std::alloc::Global;

/// Takes the first caller and reads its bytes to their end; stops where there are more than the limit, in bytes. Where no
/// caller comes, there are none.
pub fn read_input<L: Door>(alloc: Global, door: &mut L, limit: usize) -> Result<ReadEnd, Stop>
    requires { limit < 2 ^ 40 }
    ensures ok { IfOk result (λ end. ReadsWhole (input_of (L.callers door.old)) limit end) }
    ensures accept_cause { result ≡ Err Stop.Accepting → Rose (L.accept_faults door.old) (L.accept_faults door.new) }
    ensures accept_fault { L.accept_faults door.old < L.accept_faults door.new → result ≡ Err Stop.Accepting }
    ensures cause { result ≡ Err Stop.Reading → InputFailed (L.callers door.old) (L.callers door.new) (Rose (L.faults door.old) (L.faults door.new)) }
    ensures unsent { SendsNothing (L.callers door.old) (L.callers door.new) }
    ensures fault { L.faults door.old < L.faults door.new → result ≡ Err Stop.Reading }
{
    match door.next_caller() {
        Err(_) => Err(Stop::Accepting),
        Ok(false) => Ok(ReadEnd::Whole(Vec::new(alloc))),
        Ok(true) => Ok(read_caller(alloc, door, limit)?),
    }
}

/// Reads what is left of the current caller.
fn read_caller<L: Door>(alloc: Global, door: &mut L, limit: usize) -> Result<ReadEnd, DeviceFault>
    requires { limit < 2 ^ 40 }
    ensures ok { IfOk result (λ end. ReadsWhole (current_left (L.callers door.old)) limit end) }
    ensures heard { Moves (Hears result) (L.callers door.old) (L.callers door.new) }
    ensures cause { HasDeviceCause (L.faults door.old) (L.faults door.new) result }
    ensures unchanged { L.accept_faults door.new ≡ L.accept_faults door.old }
{
    let mut bytes = Vec::new(alloc);
    let mut buf = [0u8; 4096];
    while bytes.len() <= limit {
        match door.read(&mut buf) {
            Ok(0) => return Ok(ReadEnd::Whole(bytes)),
            Ok(count) => bytes.extend_from_slice(&buf[..count])?,
            Err(_) => return Err(DeviceFault::Failed),
        }
    }
    Ok(ReadEnd::TooLong)
}
