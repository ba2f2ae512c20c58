//! Changes in memory that never fail.
ghost use Rattle.std.specs.Prelude.{◌≡◌, ◌≤◌, All, Some, length};

use crate::batches::Batches;
use crate::changes::Changes;
use crate::fault::DeviceFault;
use krb_names::Bytes;
use std::alloc::Global;
use std::marker::Model;

/// Batches in memory. No taking fails.
#[derive(Debug, Drop)]
pub struct SteadyChanges {
    batches: Batches,
}

impl Model for SteadyChanges {
    ghost use Rattle.std.specs.Prelude.{List, ℕ};

    ghost Value = { List (List ℕ) };

    ghost view = { λ s. s.batches };
}

impl SteadyChanges {
    /// These batches, in their order.
    pub fn new(alloc: Global, batches: Vec<Bytes>) -> SteadyChanges
        requires { All (λ batch. length batch ≤ 1048576) batches.items }
        ensures { result ≡ batches.items }
    {
        SteadyChanges {
            batches: Batches::new(alloc, batches),
        }
    }
}

impl Changes for SteadyChanges {
    ghost batches = { λ s. Some s };

    ghost faults = { λ _. 0 };

    fn take(&mut self) -> Result<Bytes, DeviceFault> {
        Ok(self.batches.take())
    }
}
