//! Batches in memory.
ghost use Rattle.std.specs.Prelude.{◌≡◌, ◌≤◌, All, length};
ghost use Rattle.kb_base.specs.Batches.{first_batch, later_batches};

use krb_names::Bytes;
use std::alloc::Global;
use std::collections::VecDeque;
use std::marker::Model;

/// Batches of at most 1,048,576 bytes each.
#[derive(Debug, Drop)]
pub(crate) struct Batches {
    alloc: Global,
    left: VecDeque<Bytes>,
}

impl Model for Batches {
    ghost use Rattle.std.specs.Prelude.{ℕ, List, All, length, ◌≤◌};

    ghost Value = { List (List ℕ) };

    ghost view = { λ s. s.left.items };

    ghost invariant = { λ s. All (λ batch. length batch ≤ 1048576) s.left.items };
}

impl Batches {
    /// These batches.
    pub(crate) fn new(alloc: Global, batches: Vec<Bytes>) -> Batches
        requires { All (λ batch. length batch ≤ 1048576) batches.items }
        ensures { result ≡ batches.items }
    {
        Batches {
            alloc,
            left: VecDeque::from_vec(batches),
        }
    }

    /// Takes the first batch, an empty one where there is none.
    pub(crate) fn take(&mut self) -> Bytes
        ensures first { result ≡ first_batch self.old }
        ensures later { self.new ≡ later_batches self.old }
        ensures within { length result ≤ 1048576 }
    {
        match self.left.pop_front() {
            Some(batch) => batch,
            None => Bytes::new(self.alloc),
        }
    }
}
