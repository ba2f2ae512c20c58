//! A door in memory that never fails.
ghost use Rattle.std.specs.Prelude.{◌≡◌, [], None, Some, IfOk, option_map, slice_get};
ghost use Rattle.kb_base.specs.Callers.{arrived};

use crate::callers::Callers;
use crate::door::Door;
use crate::fault::{DeviceFault, Failed};
use krb_names::Bytes;
use std::alloc::{AllocError, Global};
use std::marker::Model;

/// Callers in memory. No call fails but a write without a current caller, and a write for want of memory.
#[derive(Debug, Drop)]
pub struct SteadyDoor {
    callers: Callers,
    faults: u64,
}

impl Model for SteadyDoor {
    ghost use Rattle.kb_base.specs.Held.{SteadyDoorValue};

    ghost Value = { SteadyDoorValue };

    ghost view = { λ s. record { callers = s.callers; faults = s.faults } };
}

impl SteadyDoor {
    /// Callers with these bytes, in their order.
    pub fn new(alloc: Global, callers: Vec<Bytes>) -> Result<SteadyDoor, AllocError>
        ensures { IfOk result (λ door. door ≡ record { callers = record { gone = []; current = None; waiting = callers.items }; faults = 0 }) }
    {
        Ok(SteadyDoor {
            callers: Callers::new(alloc, callers)?,
            faults: 0,
        })
    }

    /// What the caller at this index, from 0, was sent, if it came.
    pub fn sent(&self, index: usize) -> Option<&[u8]>
        ensures { option_map (λ sent. sent.now) result ≡ option_map (λ caller. caller.sent) (slice_get (arrived self.now.callers) index) }
    {
        self.callers.sent(index)
    }
}

impl Door for SteadyDoor {
    ghost callers = { λ s. Some s.callers };

    ghost accept_faults = { λ _. 0 };

    ghost faults = { λ s. s.faults };

    fn next_caller(&mut self) -> Result<bool, Failed> {
        Ok(self.callers.next())
    }

    fn read(&mut self, buf: &mut [u8]) -> Result<usize, Failed> {
        Ok(self.callers.read(buf))
    }

    fn write(&mut self, piece: &[u8]) -> Result<usize, DeviceFault> {
        if !self.callers.has_current() {
            self.faults = self.faults.saturating_add(1);
            return Err(DeviceFault::Failed);
        }
        self.callers.write(piece)?;
        Ok(piece.len())
    }
}
