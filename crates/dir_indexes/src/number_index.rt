//! Places by number.
ghost use Rattle.std.specs.Prelude.{◌≡◌, ℕ, IfOk, OnErr, OnOk, None, Some, nat_eq, option_map};
ghost use Rattle.dir_indexes.specs.Places.{Adds, IsSame, Puts, moved_down, place_of_number};

use std::alloc::{AllocError, Global};
use std::collections::BTreeMap;

/// A place for each of some numbers, kept in their order.
#[derive(Debug, Drop)]
pub struct NumberIndex {
    places: BTreeMap<u32, u32>,
}

impl NumberIndex {
    /// No number. Takes no memory.
    pub fn new(alloc: Global) -> NumberIndex
        ensures { (number : ℕ) → place_of_number result number ≡ None }
    {
        NumberIndex {
            places: BTreeMap::new(alloc),
        }
    }

    /// The place of a number. Takes no memory.
    pub fn find(&self, number: u32) -> Option<u32>
        ensures { result ≡ place_of_number self.now number }
    {
        self.places.get(&number).copied()
    }

    /// Gives a number its place. An `Err` changes nothing.
    pub fn insert(&mut self, number: u32, place: u32) -> Result<(), AllocError>
        ensures ok { OnOk result (Puts nat_eq (place_of_number self.old) (place_of_number self.new) number (Some place)) }
        ensures err { OnErr result (IsSame (place_of_number self.old) (place_of_number self.new)) }
    {
        self.places.insert(number, place)?;
        Ok(())
    }

    /// Gives a number its place, unless it has one. An `Err` changes nothing.
    pub fn add(&mut self, number: u32, place: u32) -> Result<(), AllocError>
        ensures ok { OnOk result (Adds nat_eq (place_of_number self.old) (place_of_number self.new) number place) }
        ensures err { OnErr result (IsSame (place_of_number self.old) (place_of_number self.new)) }
    {
        match self.find(number) {
            Some(_) => Ok(()),
            None => self.insert(number, place),
        }
    }

    /// Takes a number away. Takes no memory.
    pub fn remove(&mut self, number: u32)
        ensures { Puts nat_eq (place_of_number self.old) (place_of_number self.new) number None }
    {
        let _ = self.places.remove(&number);
    }

    /// Moves each place above one down by one. Takes no memory.
    pub fn close_gap(&mut self, at: u32)
        ensures { (number : ℕ) → place_of_number self.new number ≡ option_map (moved_down at) (place_of_number self.old number) }
    {
        self.places.retain(|_, place| {
            if *place > at {
                *place -= 1;
            }
            true
        });
    }

    /// A copy.
    pub fn try_clone(&self) -> Result<NumberIndex, AllocError>
        ensures { IfOk result (λ copied. IsSame (place_of_number self.now) (place_of_number copied)) }
    {
        Ok(NumberIndex {
            places: self.places.clone()?,
        })
    }
}
