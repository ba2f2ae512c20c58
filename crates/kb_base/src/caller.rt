//! A caller in memory.
ghost use Rattle.std.specs.Prelude.{◌≡◌, ◌≤◌, ◌++◌, ℕ, Some, Ok, Result, OnOk, OnErr, length};
ghost use Rattle.std.specs.Io.KnownBytes.{ReadConsumes};
ghost use Rattle.kb_base.specs.Callers.{failed_once, new_caller};
ghost use Rattle.kb_base.specs.declared.fault.Failed.{Failed};

use crate::front::read_front;
use krb_names::Bytes;
use std::alloc::{AllocError, Global};
use std::marker::Model;

/// A caller: its bytes and how many of them were read, what it was sent, and how many of its calls failed.
#[derive(Debug, Drop)]
pub(crate) struct Caller {
    bytes: Bytes,
    at: usize,
    sent: Vec<u8>,
    faults: u64,
}

impl Model for Caller {
    ghost use Rattle.std.specs.Prelude.{drop, length, ◌≤◌};
    ghost use Rattle.kb_base.specs.Callers.{CallerValue};

    ghost Value = { CallerValue };

    ghost view = { λ s. record { left = drop s.at s.bytes; sent = s.sent.items; faults = s.faults } };

    ghost invariant = { λ s. s.at ≤ length s.bytes };
}

impl Caller {
    /// One with these bytes, who was sent nothing yet.
    pub(crate) fn new(alloc: Global, bytes: Bytes) -> Caller
        ensures { result ≡ new_caller bytes }
    {
        Caller {
            bytes,
            at: 0,
            sent: Vec::new(alloc),
            faults: 0,
        }
    }

    /// What it was sent.
    pub(crate) fn sent(&self) -> &[u8]
        ensures { result.now ≡ self.now.sent }
    {
        self.sent.as_slice()
    }

    /// Reads as many of its bytes as the buffer takes.
    pub(crate) fn read(&mut self, buf: &mut [u8]) -> usize
        ensures bound { result ≤ length buf.new }
        ensures bytes { let given : Result ℕ Failed = Ok result in ReadConsumes (Some self.old.left) (Some self.new.left) given buf.new }
        ensures unchanged { self.new ≡ record self.old { left = self.new.left } }
    {
        let count = read_front(&self.bytes.as_slice()[self.at..], buf);
        self.at += count;
        count
    }

    /// Sends it the piece.
    pub(crate) fn write(&mut self, piece: &[u8]) -> Result<(), AllocError>
        ensures ok { OnOk result (self.new ≡ record self.old { sent = self.old.sent ++ piece.now }) }
        ensures err { OnErr result (self.new ≡ self.old) }
    {
        self.sent.extend_from_slice(piece)
    }

    /// Counts a call that failed.
    pub(crate) fn fail(&mut self)
        ensures counted { self.new ≡ failed_once self.old }
        ensures later { self.old.faults ≤ self.new.faults }
    {
        self.faults = self.faults.saturating_add(1);
    }
}
