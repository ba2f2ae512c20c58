//! A peer in memory.
ghost use Rattle.std.specs.Prelude.{◌≡◌, ◌<◌, ◌↔◌, true, Some, [], IsErr, IfOk, length};
ghost use Rattle.std.specs.Io.{ReadsAtMost, WritesAtMost};
ghost use Rattle.std.specs.Io.KnownBytes.{ReadConsumes, WriteAppends};
ghost use Rattle.kdc_prelude.specs.Causes.{HasCause};
ghost use Rattle.kb_base.specs.Counts.{is_listed, one_more};
ghost use Rattle.kb_base.specs.Faults.{HasDeviceCause};

use crate::fault::{DeviceFault, Failed};
use crate::front::{is_listed, read_front};
use crate::link::Link;
use krb_names::{Bytes, Numbers};
use std::alloc::Global;
use std::marker::Model;

/// A peer in memory, of whose calls those with the listed numbers, counted from 1 over both kinds, fail.
#[derive(Debug, Drop)]
pub struct MemLink {
    bytes: Bytes,
    at: usize,
    sent: Vec<u8>,
    fails: Numbers,
    calls: u64,
    faults: u64,
}

impl Model for MemLink {
    ghost use Rattle.std.specs.Prelude.{drop, length, ◌≤◌};
    ghost use Rattle.kb_base.specs.Held.{LinkValue};

    ghost Value = { LinkValue };

    ghost view = { λ s. record { left = drop s.at s.bytes; sent = s.sent.items; fails = s.fails; calls = s.calls; faults = s.faults } };

    ghost invariant = { λ s. s.at ≤ length s.bytes };
}

impl MemLink {
    /// A peer that gives these bytes, and was sent nothing yet.
    pub fn new(alloc: Global, bytes: Bytes, fails: Numbers) -> MemLink
        ensures { result ≡ record { left = bytes; sent = []; fails = fails; calls = 0; faults = 0 } }
    {
        MemLink {
            bytes,
            at: 0,
            sent: Vec::new(alloc),
            fails,
            calls: 0,
            faults: 0,
        }
    }

    /// What it was sent.
    pub fn sent(&self) -> &[u8]
        ensures { result.now ≡ self.now.sent }
    {
        self.sent.as_slice()
    }
}

impl Link for MemLink {
    ghost left = { λ s. Some s.left };

    ghost sent = { λ s. Some s.sent };

    ghost faults = { λ s. s.faults };

    fn read(&mut self, buf: &mut [u8]) -> Result<usize, Failed>
        ensures bound { ReadsAtMost result buf.new }
        ensures bytes { ReadConsumes (Some self.old.left) (Some self.new.left) result buf.new }
        ensures cause { HasCause self.old.faults self.new.faults result }
        ensures unchanged { self.new.sent ≡ self.old.sent }
        ensures listed { IsErr result ↔ (is_listed self.old.fails (one_more self.old.calls) ≡ true) }
        ensures counted { (self.new.calls ≡ one_more self.old.calls) × (self.new.fails ≡ self.old.fails) }
    {
        self.calls = self.calls.saturating_add(1);
        if is_listed(self.fails.as_slice(), self.calls) {
            self.faults = self.faults.saturating_add(1);
            return Err(Failed);
        }
        let count = read_front(&self.bytes.as_slice()[self.at..], buf);
        self.at += count;
        Ok(count)
    }

    fn write(&mut self, piece: &[u8]) -> Result<usize, DeviceFault>
        ensures bound { WritesAtMost result piece.now }
        ensures some { IfOk result (λ count. 0 < length piece.now → 0 < count) }
        ensures bytes { WriteAppends (Some self.old.sent) (Some self.new.sent) result piece.now }
        ensures cause { HasDeviceCause self.old.faults self.new.faults result }
        ensures unchanged { self.new.left ≡ self.old.left }
        ensures listed { (result ≡ Err DeviceFault.Failed) ↔ (is_listed self.old.fails (one_more self.old.calls) ≡ true) }
        ensures counted { (self.new.calls ≡ one_more self.old.calls) × (self.new.fails ≡ self.old.fails) }
    {
        self.calls = self.calls.saturating_add(1);
        if is_listed(self.fails.as_slice(), self.calls) {
            self.faults = self.faults.saturating_add(1);
            return Err(DeviceFault::Failed);
        }
        self.sent.extend_from_slice(piece)?;
        Ok(piece.len())
    }
}
