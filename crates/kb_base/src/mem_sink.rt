//! A sink in memory.
ghost use Rattle.std.specs.Prelude.{◌≡◌, ◌<◌, ◌↔◌, true, Some, [], IfOk, length};
ghost use Rattle.std.specs.Io.{WritesAtMost};
ghost use Rattle.std.specs.Io.KnownBytes.{WriteAppends};
ghost use Rattle.kb_base.specs.Faults.{HasDeviceCause};
ghost use Rattle.kb_base.specs.Counts.{is_listed, one_more};

use crate::fault::DeviceFault;
use crate::front::is_listed;
use crate::sink::Sink;
use krb_names::Numbers;
use std::alloc::Global;
use std::marker::Model;

/// Bytes in memory, whose writes with the listed numbers, counted from 1, fail.
#[derive(Debug, Drop)]
pub struct MemSink {
    bytes: Vec<u8>,
    fails: Numbers,
    calls: u64,
    faults: u64,
}

impl Model for MemSink {
    ghost use Rattle.kb_base.specs.Held.{SinkValue};

    ghost Value = { SinkValue };

    ghost view = { λ s. record { held = s.bytes.items; fails = s.fails; calls = s.calls; faults = s.faults } };
}

impl MemSink {
    /// A sink that holds nothing yet.
    pub fn new(alloc: Global, fails: Numbers) -> MemSink
        ensures { result ≡ record { held = []; fails = fails; calls = 0; faults = 0 } }
    {
        MemSink {
            bytes: Vec::new(alloc),
            fails,
            calls: 0,
            faults: 0,
        }
    }

    /// What was written.
    pub fn as_slice(&self) -> &[u8]
        ensures { result.now ≡ self.now.held }
    {
        self.bytes.as_slice()
    }
}

impl Sink for MemSink {
    ghost held = { λ s. Some s.held };

    ghost faults = { λ s. s.faults };

    fn write(&mut self, piece: &[u8]) -> Result<usize, DeviceFault>
        ensures bound { WritesAtMost result piece.now }
        ensures some { IfOk result (λ count. 0 < length piece.now → 0 < count) }
        ensures bytes { WriteAppends (Some self.old.held) (Some self.new.held) result piece.now }
        ensures cause { HasDeviceCause self.old.faults self.new.faults result }
        ensures listed { (result ≡ Err DeviceFault.Failed) ↔ (is_listed self.old.fails (one_more self.old.calls) ≡ true) }
        ensures counted { (self.new.calls ≡ one_more self.old.calls) × (self.new.fails ≡ self.old.fails) }
    {
        self.calls = self.calls.saturating_add(1);
        if is_listed(self.fails.as_slice(), self.calls) {
            self.faults = self.faults.saturating_add(1);
            return Err(DeviceFault::Failed);
        }
        self.bytes.extend_from_slice(piece)?;
        Ok(piece.len())
    }
}
