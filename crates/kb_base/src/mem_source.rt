//! A source in memory.
ghost use Rattle.std.specs.Prelude.{◌≡◌, ◌↔◌, true, Some, IsErr};
ghost use Rattle.std.specs.Io.{ReadsAtMost};
ghost use Rattle.std.specs.Io.KnownBytes.{ReadConsumes};
ghost use Rattle.kdc_prelude.specs.Causes.{HasCause};
ghost use Rattle.kb_base.specs.Counts.{is_listed, one_more};

use crate::fault::Failed;
use crate::front::{is_listed, read_front};
use crate::source::Source;
use krb_names::{Bytes, Numbers};
use std::alloc::Global;
use std::marker::Model;

/// Bytes in memory, whose reads with the listed numbers, counted from 1, fail.
#[derive(Debug, Drop)]
pub struct MemSource {
    bytes: Bytes,
    at: usize,
    fails: Numbers,
    calls: u64,
    faults: u64,
}

impl Model for MemSource {
    ghost use Rattle.std.specs.Prelude.{drop, length, ◌≤◌};
    ghost use Rattle.kb_base.specs.Held.{SourceValue};

    ghost Value = { SourceValue };

    ghost view = { λ s. record { left = drop s.at s.bytes; fails = s.fails; calls = s.calls; faults = s.faults } };

    ghost invariant = { λ s. s.at ≤ length s.bytes };
}

impl MemSource {
    /// A source of these bytes.
    pub fn new(_alloc: Global, bytes: Bytes, fails: Numbers) -> MemSource
        ensures { result ≡ record { left = bytes; fails = fails; calls = 0; faults = 0 } }
    {
        MemSource {
            bytes,
            at: 0,
            fails,
            calls: 0,
            faults: 0,
        }
    }
}

impl Source for MemSource {
    ghost left = { λ s. Some s.left };

    ghost faults = { λ s. s.faults };

    fn read(&mut self, buf: &mut [u8]) -> Result<usize, Failed>
        ensures bound { ReadsAtMost result buf.new }
        ensures bytes { ReadConsumes (Some self.old.left) (Some self.new.left) result buf.new }
        ensures cause { HasCause self.old.faults self.new.faults result }
        ensures listed { IsErr result ↔ (is_listed self.old.fails (one_more self.old.calls) ≡ true) }
        ensures counted { (self.new.calls ≡ one_more self.old.calls) × (self.new.fails ≡ self.old.fails) }
    {
        self.calls = self.calls.saturating_add(1);
        if is_listed(self.fails.as_slice(), self.calls) {
            self.faults = self.faults.saturating_add(1);
            return Err(Failed);
        }
        let count = read_front(&self.bytes.as_slice()[self.at..], buf);
        self.at += count;
        Ok(count)
    }
}
