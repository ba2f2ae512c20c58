//! What a JSON value is read as.
ghost use Rattle.std.specs.Prelude.{◌≡◌, MatchResult, option_map};
ghost use Rattle.serde_json.specs.View.{view};
ghost use Rattle.dir_text.specs.Gives.{Gives};
ghost use Rattle.dir_text.specs.Members.{optional, passing};
ghost use Rattle.krb_names.specs.Pieces.{is_name};
ghost use Rattle.dir_records.specs.Forms.{is_service_name};
ghost use Rattle.dir_text.specs.Values.{account_name_of, flag_of, number_of, realm_name_of, realm_sid_of, salt_of, sid_of, spn_of, text_of};

use crate::members::bad_field;
use dir_core::{DirPlace, DirRefusal, is_account_name, is_service_name};
use krb_names::{NameRefusal, Realm, Sid, Text, is_name_text, parse_realm, parse_sid};
use serde_json::Value;
use std::alloc::{AllocError, Global};

/// The longest salt, in bytes.
const MAX_SALT: usize = 1024;

pub(crate) fn text_of(alloc: Global, place: DirPlace, value: &Value) -> Result<Text, DirRefusal>
    ensures { Gives result (text_of place (view value.now)) }
{
    match value.as_str() {
        Some(text) => Ok(Text::copy(alloc, text)?),
        None => Err(bad_field(place)),
    }
}

pub(crate) fn flag_of(place: DirPlace, value: &Value) -> Result<bool, DirRefusal>
    ensures { result ≡ flag_of place (view value.now) }
{
    match value.as_bool() {
        Some(flag) => Ok(flag),
        None => Err(bad_field(place)),
    }
}

pub(crate) fn optional_flag(
    place: DirPlace,
    found: Option<&Value>,
    default: bool,
) -> Result<bool, DirRefusal>
    ensures { result ≡ optional default (flag_of place) (option_map (λ v. view v.now) found.entry) }
{
    match found {
        Some(value) => flag_of(place, value),
        None => Ok(default),
    }
}

#[tactic(auto, unfolding(crate::specs::Values::number_of))]
pub(crate) fn number_of(
    place: DirPlace,
    value: &Value,
    low: u32,
    high: u32,
) -> Result<u32, DirRefusal>
    ensures { result ≡ number_of place low high (view value.now) }
{
    match value.as_u64() {
        Some(number) if number >= u64::from(low) && number <= u64::from(high) => Ok(number as u32),
        _ => Err(bad_field(place)),
    }
}

#[tactic(auto, unfolding(crate::specs::Values::account_name_of))]
pub(crate) fn account_name_of(
    alloc: Global,
    place: DirPlace,
    value: &Value,
) -> Result<Text, DirRefusal>
    ensures { Gives result (account_name_of place (view value.now)) }
{
    match value.as_str() {
        Some(name) if is_account_name(name) => Ok(Text::copy(alloc, name)?),
        _ => Err(bad_field(place)),
    }
}

#[tactic(auto, unfolding(crate::specs::Values::spn_of))]
pub(crate) fn spn_of(alloc: Global, place: DirPlace, value: &Value) -> Result<Text, DirRefusal>
    ensures { Gives result (spn_of place (view value.now)) }
{
    match value.as_str() {
        Some(spn) => service_of(alloc, place, spn),
        None => Err(bad_field(place)),
    }
}

fn service_of(alloc: Global, place: DirPlace, spn: &str) -> Result<Text, DirRefusal>
    ensures { Gives result (passing place is_service_name spn.now) }
{
    if is_service_name(alloc, spn)? {
        Ok(Text::copy(alloc, spn)?)
    } else {
        Err(bad_field(place))
    }
}

#[tactic(auto, unfolding(crate::specs::Values::salt_of))]
pub(crate) fn salt_of(alloc: Global, place: DirPlace, value: &Value) -> Result<Text, DirRefusal>
    ensures { Gives result (salt_of place (view value.now)) }
{
    match value.as_str() {
        Some(salt) if salt.len() <= MAX_SALT => Ok(Text::copy(alloc, salt)?),
        _ => Err(bad_field(place)),
    }
}

#[tactic(auto, unfolding(crate::specs::Values::realm_name_of))]
pub(crate) fn realm_name_of(
    alloc: Global,
    place: DirPlace,
    value: &Value,
) -> Result<Realm, DirRefusal>
    ensures { Gives result (realm_name_of place (view value.now)) }
{
    match value.as_str() {
        Some(text) => realm_of_text(alloc, place, text),
        None => Err(bad_field(place)),
    }
}

/// The name of a realm, as a text.
#[tactic(auto, unfolding(crate::specs::Values::realm_name_of))]
pub(crate) fn realm_name_text_of(
    alloc: Global,
    place: DirPlace,
    value: &Value,
) -> Result<Text, DirRefusal>
    ensures { Gives result (realm_name_of place (view value.now)) }
{
    match value.as_str() {
        Some(name) if is_name_text(name) => Ok(Text::copy(alloc, name)?),
        _ => Err(bad_field(place)),
    }
}

fn realm_of_text(alloc: Global, place: DirPlace, text: &str) -> Result<Realm, DirRefusal>
    ensures { Gives result (passing place is_name text.now) }
{
    match parse_realm(alloc, text) {
        Ok(realm) => Ok(realm),
        Err(NameRefusal::NoMemory) => Err(DirRefusal::from(AllocError)),
        Err(_) => Err(bad_field(place)),
    }
}

#[tactic(auto, unfolding(crate::specs::Values::sid_of))]
pub(crate) fn sid_of(place: DirPlace, value: &Value) -> Result<Sid, DirRefusal>
    ensures { result ≡ sid_of place (view value.now) }
{
    match value.as_str() {
        Some(text) => match parse_sid(text) {
            Ok(sid) => Ok(sid),
            Err(_) => Err(bad_field(place)),
        },
        None => Err(bad_field(place)),
    }
}

#[tactic(auto, unfolding(crate::specs::Values::realm_sid_of))]
pub(crate) fn realm_sid_of(place: DirPlace, value: &Value) -> Result<Sid, DirRefusal>
    ensures { result ≡ realm_sid_of place (view value.now) }
{
    let sid = sid_of(place, value)?;
    if sid.numbers().len() > 14 {
        return Err(bad_field(place));
    }
    Ok(sid)
}
