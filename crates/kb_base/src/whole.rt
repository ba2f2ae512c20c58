//! Reading a source to its end, and writing a piece whole.
ghost use Rattle.std.specs.Prelude.{◌≡◌, ◌<◌, ◌≤◌, ◌^◌, ℕ, List, IfOk, OnOk, OnErr};
ghost use Rattle.std.specs.Io.KnownBytes.{Appends};
ghost use Rattle.kdc_prelude.specs.Printed.{AppendsFront};
ghost use Rattle.kb_base.specs.Faults.{HasDeviceCause};
ghost use Rattle.kb_base.specs.Reading.{Leaves, ReadsWhole};

use crate::fault::DeviceFault;
use crate::sink::Sink;
use crate::source::Source;
use std::alloc::Global;

/// How reading to the end went.
#[derive(Debug, Drop)]
pub enum ReadEnd {
    /// All that was left.
    Whole(Vec<u8>),
    /// More was left than the limit.
    TooLong,
}

/// Reads all that is left; stops where it is more than the limit, in bytes. The first fault of the source ends it.
pub fn read_whole<S: Source>(
    alloc: Global,
    source: &mut S,
    limit: usize,
) -> Result<ReadEnd, DeviceFault>
    requires { limit < 2 ^ 40 }
    ensures ok { IfOk result (λ end. ReadsWhole (S.left source.old) limit end) }
    ensures rest { Leaves (S.left source.old) (S.left source.new) limit result }
    ensures cause { HasDeviceCause (S.faults source.old) (S.faults source.new) result }
{
    let mut bytes = Vec::new(alloc);
    let mut buf = [0u8; 4096];
    while bytes.len() <= limit {
        match source.read(&mut buf) {
            Ok(0) => return Ok(ReadEnd::Whole(bytes)),
            Ok(count) => bytes.extend_from_slice(&buf[..count])?,
            Err(_) => return Err(DeviceFault::Failed),
        }
    }
    Ok(ReadEnd::TooLong)
}

/// Writes the whole piece. The first fault of the sink ends it. On an `Err` a front of it was written.
pub fn write_whole<K: Sink>(sink: &mut K, piece: &[u8]) -> Result<(), DeviceFault>
    ensures ok { OnOk result (Appends (K.held sink.old) (K.held sink.new) piece.now) }
    ensures err { OnErr result (AppendsFront (K.held sink.old) (K.held sink.new) piece.now) }
    ensures cause { HasDeviceCause (K.faults sink.old) (K.faults sink.new) result }
{
    let mut at = 0;
    while at < piece.len() {
        at += sink.write(&piece[at..])?;
    }
    Ok(())
}
