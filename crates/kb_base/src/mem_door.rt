//! A door in memory.
ghost use Rattle.std.specs.Prelude.{◌≡◌, ◌<◌, ◌≤◌, ◌↔◌, ◌||◌, true, [], None, Some, is_none, IsErr, IfOk, IfSome, length, option_map, slice_get};
ghost use Rattle.std.specs.Io.{ReadsAtMost, WritesAtMost};
ghost use Rattle.kdc_prelude.specs.Causes.{HasCause};
ghost use Rattle.kb_base.specs.Callers.{ReadsCaller, TakesCaller, WritesCaller, arrived, failed_callers};
ghost use Rattle.kb_base.specs.Counts.{is_listed, one_more};
ghost use Rattle.kb_base.specs.Faults.{HasDeviceCause};

use crate::callers::Callers;
use crate::door::Door;
use crate::fault::{DeviceFault, Failed};
use crate::front::is_listed;
use krb_names::{Bytes, Numbers};
use std::alloc::{AllocError, Global};
use std::marker::Model;

/// Callers in memory, of whose calls those with the listed numbers, counted from 1 over all three kinds, fail.
#[derive(Debug, Drop)]
pub struct MemDoor {
    callers: Callers,
    fails: Numbers,
    calls: u64,
    accept_faults: u64,
    faults: u64,
}

impl Model for MemDoor {
    ghost use Rattle.kb_base.specs.Held.{DoorValue};

    ghost Value = { DoorValue };

    ghost view = { λ s. record { callers = s.callers; fails = s.fails; calls = s.calls; accept_faults = s.accept_faults; faults = s.faults } };
}

impl MemDoor {
    /// Callers with these bytes, in their order.
    pub fn new(alloc: Global, callers: Vec<Bytes>, fails: Numbers) -> Result<MemDoor, AllocError>
        ensures { IfOk result (λ door. door ≡ record { callers = record { gone = []; current = None; waiting = callers.items }; fails = fails; calls = 0; accept_faults = 0; faults = 0 }) }
    {
        Ok(MemDoor {
            callers: Callers::new(alloc, callers)?,
            fails,
            calls: 0,
            accept_faults: 0,
            faults: 0,
        })
    }

    /// What the caller at this index, from 0, was sent, if it came.
    pub fn sent(&self, index: usize) -> Option<&[u8]>
        ensures { option_map (λ sent. sent.now) result ≡ option_map (λ caller. caller.sent) (slice_get (arrived self.now.callers) index) }
    {
        self.callers.sent(index)
    }

    /// Counts a call, and tells whether it is one that fails.
    fn is_next_listed(&mut self) -> bool
        ensures listed { result ≡ is_listed self.old.fails (one_more self.old.calls) }
        ensures counted { self.new ≡ record self.old { calls = one_more self.old.calls } }
    {
        self.calls = self.calls.saturating_add(1);
        is_listed(self.fails.as_slice(), self.calls)
    }

    /// Counts a fault of the current caller's connection.
    fn fail(&mut self)
        ensures counted { self.new ≡ record self.old { callers = failed_callers self.old.callers; faults = one_more self.old.faults } }
        ensures later { self.old.faults ≤ self.new.faults }
        ensures own_later { IfSome self.old.callers.current (λ caller. caller.faults ≤ one_more caller.faults) }
    {
        self.faults = self.faults.saturating_add(1);
        self.callers.fail();
    }
}

impl Door for MemDoor {
    ghost callers = { λ s. Some s.callers };

    ghost accept_faults = { λ s. s.accept_faults };

    ghost faults = { λ s. s.faults };

    fn next_caller(&mut self) -> Result<bool, Failed>
        ensures caller { TakesCaller (Some self.old.callers) (Some self.new.callers) result }
        ensures cause { HasCause self.old.accept_faults self.new.accept_faults result }
        ensures unchanged { self.new.faults ≡ self.old.faults }
        ensures listed { IsErr result ↔ (is_listed self.old.fails (one_more self.old.calls) ≡ true) }
        ensures counted { (self.new.calls ≡ one_more self.old.calls) × (self.new.fails ≡ self.old.fails) }
    {
        if self.is_next_listed() {
            self.accept_faults = self.accept_faults.saturating_add(1);
            return Err(Failed);
        }
        Ok(self.callers.next())
    }

    fn read(&mut self, buf: &mut [u8]) -> Result<usize, Failed>
        ensures bound { ReadsAtMost result buf.new }
        ensures bytes { ReadsCaller (Some self.old.callers) (Some self.new.callers) result buf.new }
        ensures cause { HasCause self.old.faults self.new.faults result }
        ensures unchanged { self.new.accept_faults ≡ self.old.accept_faults }
        ensures listed { IsErr result ↔ (is_listed self.old.fails (one_more self.old.calls) ≡ true) }
        ensures counted { (self.new.calls ≡ one_more self.old.calls) × (self.new.fails ≡ self.old.fails) }
    {
        if self.is_next_listed() {
            self.fail();
            return Err(Failed);
        }
        Ok(self.callers.read(buf))
    }

    fn write(&mut self, piece: &[u8]) -> Result<usize, DeviceFault>
        ensures bound { WritesAtMost result piece.now }
        ensures some { IfOk result (λ count. 0 < length piece.now → 0 < count) }
        ensures bytes { WritesCaller (Some self.old.callers) (Some self.new.callers) result piece.now }
        ensures cause { HasDeviceCause self.old.faults self.new.faults result }
        ensures unchanged { self.new.accept_faults ≡ self.old.accept_faults }
        // A listed call fails, and one without a current caller.
        ensures listed { (result ≡ Err DeviceFault.Failed) ↔ ((is_listed self.old.fails (one_more self.old.calls) || is_none self.old.callers.current) ≡ true) }
        ensures counted { (self.new.calls ≡ one_more self.old.calls) × (self.new.fails ≡ self.old.fails) }
    {
        if self.is_next_listed() || !self.callers.has_current() {
            self.fail();
            return Err(DeviceFault::Failed);
        }
        self.callers.write(piece)?;
        Ok(piece.len())
    }
}
