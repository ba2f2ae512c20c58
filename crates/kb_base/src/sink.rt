//! Bytes that are written.
ghost use Rattle.std.specs.Prelude.{◌<◌, ℕ, List, Option, IfOk, length};
ghost use Rattle.std.specs.Io.{WritesAtMost};
ghost use Rattle.std.specs.Io.KnownBytes.{WriteAppends};
ghost use Rattle.kb_base.specs.Faults.{HasDeviceCause};

use crate::fault::DeviceFault;

/// Bytes that are written, in pieces of which the sink may take a front.
pub trait Sink {
    ghost held: { Self → Option (List ℕ) };

    ghost faults: { Self → ℕ };

    /// Writes a front of the piece, of at least one byte where the piece has one. A call that fails writes nothing.
    fn write(&mut self, piece: &[u8]) -> Result<usize, DeviceFault>
        ensures bound { WritesAtMost result piece.now }
        ensures some { IfOk result (λ count. 0 < length piece.now → 0 < count) }
        ensures bytes { WriteAppends (held self.old) (held self.new) result piece.now }
        ensures cause { HasDeviceCause (faults self.old) (faults self.new) result };
}
