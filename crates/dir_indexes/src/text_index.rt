//! Places by text.
ghost use Rattle.std.specs.Prelude.{◌≡◌, ℕ, List, IfOk, OnErr, OnOk, None, Some, option_map};
ghost use Rattle.kdc_prelude.specs.Texts.{same_text};
ghost use Rattle.dir_indexes.specs.Places.{Adds, IsSame, Puts, moved_down, place_of_text};

use std::alloc::{AllocError, Global};
use std::collections::BTreeMap;

/// A place for each of some texts, kept in the order of the texts.
#[derive(Debug, Drop)]
pub struct TextIndex {
    places: BTreeMap<String, u32>,
}

impl TextIndex {
    /// No text. Takes no memory.
    pub fn new(alloc: Global) -> TextIndex
        ensures { (text : List ℕ) → place_of_text result text ≡ None }
    {
        TextIndex {
            places: BTreeMap::new(alloc),
        }
    }

    /// The place of a text. Takes no memory.
    pub fn find(&self, text: &str) -> Option<u32>
        ensures { result ≡ place_of_text self.now text.now }
    {
        self.places.get(text).copied()
    }

    /// Gives a text its place. An `Err` changes nothing.
    pub fn insert(&mut self, alloc: Global, text: &str, place: u32) -> Result<(), AllocError>
        ensures ok { OnOk result (Puts same_text (place_of_text self.old) (place_of_text self.new) text.now (Some place)) }
        ensures err { OnErr result (IsSame (place_of_text self.old) (place_of_text self.new)) }
    {
        let key = String::from_str(alloc, text)?;
        self.places.insert(key, place)?;
        Ok(())
    }

    /// Gives a text its place, unless it has one. An `Err` changes nothing.
    pub fn add(&mut self, alloc: Global, text: &str, place: u32) -> Result<(), AllocError>
        ensures ok { OnOk result (Adds same_text (place_of_text self.old) (place_of_text self.new) text.now place) }
        ensures err { OnErr result (IsSame (place_of_text self.old) (place_of_text self.new)) }
    {
        match self.find(text) {
            Some(_) => Ok(()),
            None => self.insert(alloc, text, place),
        }
    }

    /// Takes a text away. Takes no memory.
    pub fn remove(&mut self, text: &str)
        ensures { Puts same_text (place_of_text self.old) (place_of_text self.new) text.now None }
    {
        let _ = self.places.remove(text);
    }

    /// Moves each place above one down by one. Takes no memory.
    pub fn close_gap(&mut self, at: u32)
        ensures { (text : List ℕ) → place_of_text self.new text ≡ option_map (moved_down at) (place_of_text self.old text) }
    {
        self.places.retain(|_, place| {
            if *place > at {
                *place -= 1;
            }
            true
        });
    }

    /// A copy.
    pub fn try_clone(&self) -> Result<TextIndex, AllocError>
        ensures { IfOk result (λ copied. IsSame (place_of_text self.now) (place_of_text copied)) }
    {
        Ok(TextIndex {
            places: self.places.clone()?,
        })
    }
}
