//! Reading a frame.
ghost use Rattle.std.specs.Prelude.{◌≡◌, ◌≤◌, IfOk, length};
ghost use Rattle.kdc_prelude.specs.Causes.{HasCause};
ghost use Rattle.kb_base.specs.Faults.{HasDeviceCause};
ghost use Rattle.kdc_frames.specs.Moves.{Moves, ReadsFrame};
ghost use Rattle.kdc_frames.specs.Pieces.{Fills, ReadsBody, IsWithin};

use crate::frame::{Frame, Request};
use kb_base::{DeviceFault, Door, Failed};
use krb_names::Bytes;
use std::alloc::Global;

/// The longest message that is read, in bytes.
const LONGEST: usize = 131_072;

/// Reads a frame of the current caller. At most its own bytes are taken: of a frame that is too long its head alone.
///
/// # Errors
/// `Failed`: the caller's connection failed. An `Err` took less than a whole frame.
pub fn read_frame<L: Door>(alloc: Global, door: &mut L) -> Result<Frame, DeviceFault>
    ensures frame { Moves (ReadsFrame result) (L.callers door.old) (L.callers door.new) }
    ensures within { IfOk result IsWithin }
    ensures cause { HasDeviceCause (L.faults door.old) (L.faults door.new) result }
    ensures unchanged { L.accept_faults door.new ≡ L.accept_faults door.old }
{
    let mut head = [0u8; 4];
    let count = match fill(door, &mut head) {
        Ok(count) => count,
        Err(_) => return Err(DeviceFault::Failed),
    };
    if count == 0 {
        return Ok(Frame::End);
    }
    if count < 4 {
        return Ok(Frame::Cut);
    }
    read_body(alloc, door, u32::from_be_bytes(head) as usize)
}

/// Reads what follows a head that says this length.
fn read_body<L: Door>(alloc: Global, door: &mut L, said: usize) -> Result<Frame, DeviceFault>
    ensures frame { Moves (ReadsBody said result) (L.callers door.old) (L.callers door.new) }
    ensures within { IfOk result IsWithin }
    ensures cause { HasDeviceCause (L.faults door.old) (L.faults door.new) result }
    ensures unchanged { L.accept_faults door.new ≡ L.accept_faults door.old }
{
    if said > LONGEST {
        return Ok(Frame::Next(Request::TooLong));
    }
    if said == 0 {
        return Ok(Frame::Next(Request::Whole(Bytes::new(alloc))));
    }
    let mut body = vec![in alloc; 0u8; said]?;
    match fill(door, body.as_mut_slice()) {
        Ok(count) if count < said => Ok(Frame::Cut),
        Ok(_) => Ok(Frame::Next(Request::Whole(Bytes::from_vec(body)))),
        Err(_) => Err(DeviceFault::Failed),
    }
}

/// Reads of the current caller until the buffer is full or its bytes end, and tells how many bytes were read.
fn fill<L: Door>(door: &mut L, buf: &mut [u8]) -> Result<usize, Failed>
    ensures within { IfOk result (λ count. count ≤ length buf.new) }
    ensures bytes { Moves (Fills buf.new result) (L.callers door.old) (L.callers door.new) }
    ensures cause { HasCause (L.faults door.old) (L.faults door.new) result }
    ensures unchanged { L.accept_faults door.new ≡ L.accept_faults door.old }
{
    let mut at = 0;
    while at < buf.len() {
        let count = door.read(&mut buf[at..])?;
        if count == 0 {
            return Ok(at);
        }
        at += count;
    }
    Ok(at)
}
