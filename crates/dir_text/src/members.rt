//! Members of JSON objects.
ghost use Rattle.std.specs.Prelude.{◌≡◌, ◌≢◌, map, option_map, Ok, Err, IfOk, MatchResult, string_bytes};
ghost use Rattle.std.specs.BTreeMap.{keys};
ghost use Rattle.std.specs.List.{list_all};
ghost use Rattle.serde_json.specs.View.{view};
ghost use Rattle.kdc_prelude.specs.Texts.{is_one_of};
ghost use Rattle.dir_records.specs.WellFormed.{no_memory};
ghost use Rattle.dir_text.specs.Members.{is_object, is_object_of, passing, required};

use dir_core::{DirCause, DirPlace, DirRefusal};
use serde_json::{Map, Value};
use std::alloc::{AllocError, Global};

/// The refusal of a member of a wrong kind, range or text, or of an unknown one.
pub(crate) fn bad_field(place: DirPlace) -> DirRefusal
    ensures { result ≡ record { cause = DirCause.BadField; place = place } }
{
    DirRefusal {
        cause: DirCause::BadField,
        place,
    }
}

/// A member that has to be there.
pub(crate) fn required<'a>(
    place: DirPlace,
    found: Option<&'a Value>,
) -> Result<&'a Value, DirRefusal>
    ensures { let answer = required place (option_map (λ v. view v.now) found.entry) in MatchResult result (λ value. answer ≡ Ok (view value.now)) (λ refusal. answer ≡ Err refusal) }
{
    match found {
        Some(value) => Ok(value),
        None => Err(DirRefusal {
            cause: DirCause::MissingField,
            place,
        }),
    }
}

/// Refuses what is no object.
pub(crate) fn check_object(place: DirPlace, value: &Value) -> Result<(), DirRefusal>
    ensures { let answer = passing place is_object (view value.now) in MatchResult result (λ _. answer ≡ Ok (view value.now)) (λ refusal. answer ≡ Err refusal) }
{
    match value.as_object() {
        Some(_) => Ok(()),
        None => Err(bad_field(place)),
    }
}

/// Refuses an object with another member than the known ones.
pub(crate) fn check_members(
    alloc: Global,
    place: DirPlace,
    value: &Value,
    known: &[&str],
) -> Result<(), DirRefusal>
    ensures { let answer = passing place (is_object_of (map (λ name. name.now) known.now)) (view value.now) in MatchResult result (λ _. answer ≡ Ok (view value.now)) (λ refusal. (refusal ≢ no_memory) → answer ≡ Err refusal) }
{
    if has_only(alloc, value, known)? {
        Ok(())
    } else {
        Err(bad_field(place))
    }
}

fn has_only(alloc: Global, value: &Value, known: &[&str]) -> Result<bool, AllocError>
    ensures { IfOk result (λ answer. answer ≡ is_object_of (map (λ name. name.now) known.now) (view value.now)) }
{
    match value.as_object() {
        Some(members) => {
            let names = member_names(alloc, members)?;
            Ok(are_known(names.as_slice(), known))
        }
        None => Ok(false),
    }
}

fn member_names(alloc: Global, members: &Map<String, Value>) -> Result<Vec<&String>, AllocError>
    ensures { IfOk result (λ names. map (λ name. name.now) names.items ≡ keys members.now) }
{
    members.keys().collect(alloc)
}

fn are_known(names: &[&String], known: &[&str]) -> bool
    ensures { result ≡ list_all (is_one_of (map (λ name. name.now) known.now)) (map (λ name. string_bytes name.now) names.now) }
{
    for name in names {
        if !is_known(name.as_str(), known) {
            return false;
        }
    }
    true
}

fn is_known(name: &str, known: &[&str]) -> bool
    ensures { result ≡ is_one_of (map (λ name. name.now) known.now) name.now }
{
    known.iter().any(|other| name == *other)
}
