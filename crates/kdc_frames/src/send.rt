//! Sending a frame.
ghost use Rattle.std.specs.Prelude.{◌≡◌, ◌<◌, ◌^◌, length};
ghost use Rattle.kb_base.specs.Faults.{HasDeviceCause};
ghost use Rattle.kdc_frames.specs.Frames.{frame};
ghost use Rattle.kdc_frames.specs.Moves.{Moves, SendsPiece};

use kb_base::{DeviceFault, Door};

/// Sends a message in its frame to the current caller. On an `Err` a front of it was sent.
///
/// # Errors
/// `Failed`: the caller's connection failed.
pub fn send_frame<L: Door>(door: &mut L, message: &[u8]) -> Result<(), DeviceFault>
    requires { length message.now < 2 ^ 32 }
    ensures sent { Moves (SendsPiece (frame message.now) result) (L.callers door.old) (L.callers door.new) }
    ensures cause { HasDeviceCause (L.faults door.old) (L.faults door.new) result }
    ensures unchanged { L.accept_faults door.new ≡ L.accept_faults door.old }
{
    let head = (message.len() as u32).to_be_bytes();
    send_piece(door, &head)?;
    send_piece(door, message)
}

/// Sends a whole piece. On an `Err` a front of it was sent.
fn send_piece<L: Door>(door: &mut L, piece: &[u8]) -> Result<(), DeviceFault>
    ensures sent { Moves (SendsPiece piece.now result) (L.callers door.old) (L.callers door.new) }
    ensures cause { HasDeviceCause (L.faults door.old) (L.faults door.new) result }
    ensures unchanged { L.accept_faults door.new ≡ L.accept_faults door.old }
{
    let mut at = 0;
    while at < piece.len() {
        at += door.write(&piece[at..])?;
    }
    Ok(())
}
