//! A peer in memory that never fails.
ghost use Rattle.std.specs.Prelude.{◌≡◌, Some, []};

use crate::fault::{DeviceFault, Failed};
use crate::front::read_front;
use crate::link::Link;
use krb_names::Bytes;
use std::alloc::Global;
use std::marker::Model;

/// A peer in memory. No read fails, and no write but for want of memory.
#[derive(Debug, Drop)]
pub struct SteadyLink {
    bytes: Bytes,
    at: usize,
    sent: Vec<u8>,
}

impl Model for SteadyLink {
    ghost use Rattle.std.specs.Prelude.{drop, length, ◌≤◌};
    ghost use Rattle.kb_base.specs.Held.{SteadyLinkValue};

    ghost Value = { SteadyLinkValue };

    ghost view = { λ s. record { left = drop s.at s.bytes; sent = s.sent.items } };

    ghost invariant = { λ s. s.at ≤ length s.bytes };
}

impl SteadyLink {
    /// A peer that gives these bytes, and was sent nothing yet.
    pub fn new(alloc: Global, bytes: Bytes) -> SteadyLink
        ensures { result ≡ record { left = bytes; sent = [] } }
    {
        SteadyLink {
            bytes,
            at: 0,
            sent: Vec::new(alloc),
        }
    }

    /// What it was sent.
    pub fn sent(&self) -> &[u8]
        ensures { result.now ≡ self.now.sent }
    {
        self.sent.as_slice()
    }
}

impl Link for SteadyLink {
    ghost left = { λ s. Some s.left };

    ghost sent = { λ s. Some s.sent };

    ghost faults = { λ _. 0 };

    fn read(&mut self, buf: &mut [u8]) -> Result<usize, Failed> {
        let count = read_front(&self.bytes.as_slice()[self.at..], buf);
        self.at += count;
        Ok(count)
    }

    fn write(&mut self, piece: &[u8]) -> Result<usize, DeviceFault> {
        self.sent.extend_from_slice(piece)?;
        Ok(piece.len())
    }
}
