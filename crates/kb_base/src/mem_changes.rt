//! Changes in memory.
ghost use Rattle.std.specs.Prelude.{◌≡◌, ◌≤◌, ◌↔◌, true, Some, All, IfOk, length};
ghost use Rattle.kb_base.specs.Batches.{GivesBatch};
ghost use Rattle.kb_base.specs.Faults.{HasDeviceCause};
ghost use Rattle.kb_base.specs.Counts.{is_listed, one_more};

use crate::batches::Batches;
use crate::changes::Changes;
use crate::fault::DeviceFault;
use crate::front::is_listed;
use krb_names::{Bytes, Numbers};
use std::alloc::Global;
use std::marker::Model;

/// Batches in memory, of which the takings with the listed numbers, counted from 1, fail.
#[derive(Debug, Drop)]
pub struct MemChanges {
    batches: Batches,
    fails: Numbers,
    calls: u64,
    faults: u64,
}

impl Model for MemChanges {
    ghost use Rattle.kb_base.specs.Held.{ChangesValue};

    ghost Value = { ChangesValue };

    ghost view = { λ s. record { batches = s.batches; fails = s.fails; calls = s.calls; faults = s.faults } };
}

impl MemChanges {
    /// These batches, in their order.
    pub fn new(alloc: Global, batches: Vec<Bytes>, fails: Numbers) -> MemChanges
        requires { All (λ batch. length batch ≤ 1048576) batches.items }
        ensures { result ≡ record { batches = batches.items; fails = fails; calls = 0; faults = 0 } }
    {
        MemChanges {
            batches: Batches::new(alloc, batches),
            fails,
            calls: 0,
            faults: 0,
        }
    }
}

impl Changes for MemChanges {
    ghost batches = { λ s. Some s.batches };

    ghost faults = { λ s. s.faults };

    fn take(&mut self) -> Result<Bytes, DeviceFault>
        ensures within { IfOk result (λ batch. length batch ≤ 1048576) }
        ensures batch { GivesBatch (Some self.old.batches) (Some self.new.batches) result }
        ensures cause { HasDeviceCause self.old.faults self.new.faults result }
        ensures listed { (result ≡ Err DeviceFault.Failed) ↔ (is_listed self.old.fails (one_more self.old.calls) ≡ true) }
        ensures counted { (self.new.calls ≡ one_more self.old.calls) × (self.new.fails ≡ self.old.fails) }
    {
        self.calls = self.calls.saturating_add(1);
        if is_listed(self.fails.as_slice(), self.calls) {
            self.faults = self.faults.saturating_add(1);
            return Err(DeviceFault::Failed);
        }
        Ok(self.batches.take())
    }
}
