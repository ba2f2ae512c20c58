//! One peer, who is written to and read.
ghost use Rattle.std.specs.Prelude.{◌≡◌, ◌<◌, ℕ, List, Option, IfOk, length};
ghost use Rattle.std.specs.Io.{ReadsAtMost, WritesAtMost};
ghost use Rattle.std.specs.Io.KnownBytes.{ReadConsumes, WriteAppends};
ghost use Rattle.kdc_prelude.specs.Causes.{HasCause};
ghost use Rattle.kb_base.specs.Faults.{HasDeviceCause};

use crate::fault::{DeviceFault, Failed};

/// One peer: the bytes that it gives, and those that it was sent.
pub trait Link {
    ghost left: { Self → Option (List ℕ) };

    ghost sent: { Self → Option (List ℕ) };

    ghost faults: { Self → ℕ };

    /// Reads bytes of the peer, as of a source.
    fn read(&mut self, buf: &mut [u8]) -> Result<usize, Failed>
        ensures bound { ReadsAtMost result buf.new }
        ensures bytes { ReadConsumes (left self.old) (left self.new) result buf.new }
        ensures cause { HasCause (faults self.old) (faults self.new) result }
        ensures unchanged { sent self.new ≡ sent self.old };

    /// Sends bytes to the peer, as to a sink.
    fn write(&mut self, piece: &[u8]) -> Result<usize, DeviceFault>
        ensures bound { WritesAtMost result piece.now }
        ensures some { IfOk result (λ count. 0 < length piece.now → 0 < count) }
        ensures bytes { WriteAppends (sent self.old) (sent self.new) result piece.now }
        ensures cause { HasDeviceCause (faults self.old) (faults self.new) result }
        ensures unchanged { left self.new ≡ left self.old };
}
