//! Sets of numbers.
ghost use Rattle.std.specs.Prelude.{◌≡◌, ℕ, IfOk, OnErr, OnOk, false, nat_eq, true};
ghost use Rattle.dir_indexes.specs.Places.{IsSame, Puts, has_number};

use std::alloc::{AllocError, Global};
use std::collections::BTreeSet;

/// Some numbers, kept in their order.
#[derive(Debug, Drop)]
pub struct NumberSet {
    numbers: BTreeSet<u32>,
}

impl NumberSet {
    /// No number. Takes no memory.
    pub fn new(alloc: Global) -> NumberSet
        ensures { (number : ℕ) → has_number result number ≡ false }
    {
        NumberSet {
            numbers: BTreeSet::new(alloc),
        }
    }

    /// Whether the number is there. Takes no memory.
    pub fn contains(&self, number: u32) -> bool
        ensures { result ≡ has_number self.now number }
    {
        self.numbers.contains(&number)
    }

    /// Adds a number. An `Err` changes nothing.
    pub fn insert(&mut self, number: u32) -> Result<(), AllocError>
        ensures ok { OnOk result (Puts nat_eq (has_number self.old) (has_number self.new) number true) }
        ensures err { OnErr result (IsSame (has_number self.old) (has_number self.new)) }
    {
        self.numbers.insert(number)?;
        Ok(())
    }

    /// A copy.
    pub fn try_clone(&self) -> Result<NumberSet, AllocError>
        ensures { IfOk result (λ copied. IsSame (has_number self.now) (has_number copied)) }
    {
        Ok(NumberSet {
            numbers: self.numbers.clone()?,
        })
    }
}
