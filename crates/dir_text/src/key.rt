//! KEY: a key with its type and version number.
ghost use Rattle.std.specs.Prelude.{◌≡◌, length, option_map};
ghost use Rattle.serde_json.specs.View.{view};
ghost use Rattle.dir_text.specs.Gives.{Gives};
ghost use Rattle.dir_text.specs.KeyText.{etype_of, key_in, key_with, octets_of};

use crate::members::{bad_field, check_members, check_object, required};
use crate::values::{number_of, text_of};
use dir_core::{DirPlace, DirRefusal, KeyRec};
use krb_names::{Bytes, Etype, Items, Key};
use serde_json::Value;
use std::alloc::{AllocError, Global};

/// Reads a member that is a key. Its faults stand at its owner.
#[tactic(auto, unfolding(crate::specs::KeyText::key_in))]
pub(crate) fn key_in(
    alloc: Global,
    place: DirPlace,
    found: Option<&Value>,
) -> Result<KeyRec, DirRefusal>
    ensures { Gives result (key_in place (option_map (λ v. view v.now) found.entry)) }
{
    let value = required(place, found)?;
    check_object(place, value)?;
    let number = number_of(place, required(place, value.get("etype"))?, 17, 18)?;
    let version = number_of(place, required(place, value.get("kvno"))?, 1, u32::MAX)?;
    let text = text_of(alloc, place, required(place, value.get("key"))?)?;
    let octets = octets_of(alloc, place, text.as_str())?;
    let key = key_with(place, etype_of(number), octets.as_slice())?;
    check_members(alloc, place, value, &["etype", "kvno", "key"])?;
    Ok(KeyRec { key, version })
}

fn etype_of(number: u32) -> Etype
    ensures { result ≡ etype_of number }
{
    if number == 17 {
        Etype::Aes128
    } else {
        Etype::Aes256
    }
}

/// The octets of a hex text.
#[tactic(auto, unfolding(crate::specs::KeyText::octets_of))]
fn octets_of(alloc: Global, place: DirPlace, text: &str) -> Result<Bytes, DirRefusal>
    ensures { Gives result (octets_of place text.now) }
{
    match hex::decode(alloc, text) {
        Ok(octets) => Ok(Items::from_vec(octets)),
        Err(hex::FromHexError::OutOfMemory) => Err(DirRefusal::from(AllocError)),
        Err(_) => Err(bad_field(place)),
    }
}

#[tactic(auto, unfolding(crate::specs::KeyText::key_with))]
fn key_with(place: DirPlace, etype: Etype, octets: &[u8]) -> Result<Key, DirRefusal>
    ensures { result ≡ key_with place etype octets.now }
{
    if octets.len() != etype.key_length() {
        return Err(bad_field(place));
    }
    Ok(Key::new(etype, octets))
}
