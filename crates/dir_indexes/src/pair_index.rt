//! Places in realms by text.
ghost use Rattle.std.specs.Prelude.{◌≡◌, ℕ, List, IfOk, OnErr, OnOk, None, Some};
ghost use Rattle.kdc_prelude.specs.Texts.{same_text};
ghost use Rattle.dir_indexes.specs.Places.{Adds, IsSame, Puts, pair_of_text};

use std::alloc::{AllocError, Global};
use std::collections::BTreeMap;

/// A realm's index and an account's there for each of some texts, kept in the order of the texts.
#[derive(Debug, Drop)]
pub struct PairIndex {
    places: BTreeMap<String, (u32, u32)>,
}

impl PairIndex {
    /// No text. Takes no memory.
    pub fn new(alloc: Global) -> PairIndex
        ensures { (text : List ℕ) → pair_of_text result text ≡ None }
    {
        PairIndex {
            places: BTreeMap::new(alloc),
        }
    }

    /// The place of a text. Takes no memory.
    pub fn find(&self, text: &str) -> Option<(u32, u32)>
        ensures { result ≡ pair_of_text self.now text.now }
    {
        self.places.get(text).copied()
    }

    /// Gives a text its place. An `Err` changes nothing.
    pub fn insert(&mut self, alloc: Global, text: &str, place: (u32, u32)) -> Result<(), AllocError>
        ensures ok { OnOk result (Puts same_text (pair_of_text self.old) (pair_of_text self.new) text.now (Some place)) }
        ensures err { OnErr result (IsSame (pair_of_text self.old) (pair_of_text self.new)) }
    {
        let key = String::from_str(alloc, text)?;
        self.places.insert(key, place)?;
        Ok(())
    }

    /// Gives a text its place, unless it has one. An `Err` changes nothing.
    pub fn add(&mut self, alloc: Global, text: &str, place: (u32, u32)) -> Result<(), AllocError>
        ensures ok { OnOk result (Adds same_text (pair_of_text self.old) (pair_of_text self.new) text.now place) }
        ensures err { OnErr result (IsSame (pair_of_text self.old) (pair_of_text self.new)) }
    {
        match self.find(text) {
            Some(_) => Ok(()),
            None => self.insert(alloc, text, place),
        }
    }

    /// Takes a text away. Takes no memory.
    pub fn remove(&mut self, text: &str)
        ensures { Puts same_text (pair_of_text self.old) (pair_of_text self.new) text.now None }
    {
        let _ = self.places.remove(text);
    }

    /// A copy.
    pub fn try_clone(&self) -> Result<PairIndex, AllocError>
        ensures { IfOk result (λ copied. IsSame (pair_of_text self.now) (pair_of_text copied)) }
    {
        Ok(PairIndex {
            places: self.places.clone()?,
        })
    }
}
