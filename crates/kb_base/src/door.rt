//! Callers, one after the other.
ghost use Rattle.std.specs.Prelude.{◌≡◌, ◌<◌, ℕ, Option, IfOk, length};
ghost use Rattle.std.specs.Io.{ReadsAtMost, WritesAtMost};
ghost use Rattle.kdc_prelude.specs.Causes.{HasCause};
ghost use Rattle.kb_base.specs.Callers.{CallersValue, ReadsCaller, TakesCaller, WritesCaller};
ghost use Rattle.kb_base.specs.Faults.{HasDeviceCause};

use crate::fault::{DeviceFault, Failed};

/// Callers, one after the other. Faults of accepting are counted apart from those of the callers' connections.
pub trait Door {
    ghost callers: { Self → Option CallersValue };

    ghost accept_faults: { Self → ℕ };

    ghost faults: { Self → ℕ };

    /// Leaves the current caller and takes the next one. Ok(false): there is none. A call that fails leaves none and takes none.
    fn next_caller(&mut self) -> Result<bool, Failed>
        ensures caller { TakesCaller (callers self.old) (callers self.new) result }
        ensures cause { HasCause (accept_faults self.old) (accept_faults self.new) result }
        ensures unchanged { faults self.new ≡ faults self.old };

    /// Reads bytes of the current caller, as of a source. Without one a read is at its end.
    fn read(&mut self, buf: &mut [u8]) -> Result<usize, Failed>
        ensures bound { ReadsAtMost result buf.new }
        ensures bytes { ReadsCaller (callers self.old) (callers self.new) result buf.new }
        ensures cause { HasCause (faults self.old) (faults self.new) result }
        ensures unchanged { accept_faults self.new ≡ accept_faults self.old };

    /// Sends bytes to the current caller, as to a sink. Without one a write fails.
    fn write(&mut self, piece: &[u8]) -> Result<usize, DeviceFault>
        ensures bound { WritesAtMost result piece.now }
        ensures some { IfOk result (λ count. 0 < length piece.now → 0 < count) }
        ensures bytes { WritesCaller (callers self.old) (callers self.new) result piece.now }
        ensures cause { HasDeviceCause (faults self.old) (faults self.new) result }
        ensures unchanged { accept_faults self.new ≡ accept_faults self.old };
}
