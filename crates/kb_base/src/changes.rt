//! Batches of change lines.
ghost use Rattle.std.specs.Prelude.{◌≤◌, ℕ, List, Option, IfOk, length};
ghost use Rattle.kb_base.specs.Batches.{GivesBatch};
ghost use Rattle.kb_base.specs.Faults.{HasDeviceCause};

use crate::fault::DeviceFault;
use krb_names::Bytes;

/// Batches of change lines, in their order.
pub trait Changes {
    ghost batches: { Self → Option (List (List ℕ)) };

    ghost faults: { Self → ℕ };

    /// Takes the next batch, of at most 1,048,576 bytes; an empty one where none is left. An `Err` takes none.
    fn take(&mut self) -> Result<Bytes, DeviceFault>
        ensures within { IfOk result (λ batch. length batch ≤ 1048576) }
        ensures batch { GivesBatch (batches self.old) (batches self.new) result }
        ensures cause { HasDeviceCause (faults self.old) (faults self.new) result };
}
