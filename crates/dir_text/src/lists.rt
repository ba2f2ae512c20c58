//! Lists of entries.
ghost use Rattle.std.specs.Prelude.{◌≡◌, ◌≤◌, length, option_map, Ok, Err, IfOk, MatchResult};
ghost use Rattle.serde_json.specs.View.{items_view, view};
ghost use Rattle.dir_text.specs.Gives.{Gives};
ghost use Rattle.dir_text.specs.Lists.{each_of, entries_in, entries_of, list_in};
ghost use Rattle.dir_text.specs.Values.{number_of, realm_name_of, sid_of, spn_of};

use crate::members::bad_field;
use crate::values::{number_of, realm_name_text_of, sid_of, spn_of};
use dir_core::{DirCause, DirPlace, DirRefusal};
use krb_names::{Items, Numbers, Sids, Texts};
use serde_json::Value;
use std::alloc::Global;

/// The entries of a list of at most so many.
#[tactic(auto, using(crate::proofs::Entries::entry_count))]
pub(crate) fn entries_of(
    place: DirPlace,
    limit: usize,
    value: &Value,
) -> Result<&[Value], DirRefusal>
    ensures few { IfOk result (λ values. length values.now ≤ limit) }
    ensures value { let answer = entries_of place limit (view value.now) in MatchResult result (λ values. answer ≡ Ok (items_view values.now)) (λ refusal. answer ≡ Err refusal) }
{
    match value.as_array() {
        Some(values) if values.len() <= limit => Ok(values.as_slice()),
        Some(_) => Err(DirRefusal {
            cause: DirCause::TooMany,
            place,
        }),
        None => Err(bad_field(place)),
    }
}

/// The entries of a member's list of at most so many, none where the member is not there.
pub(crate) fn entries_in(
    place: DirPlace,
    limit: usize,
    found: Option<&Value>,
) -> Result<&[Value], DirRefusal>
    ensures few { IfOk result (λ values. length values.now ≤ limit) }
    ensures value { let answer = entries_in place limit (option_map (λ v. view v.now) found.entry) in MatchResult result (λ values. answer ≡ Ok (items_view values.now)) (λ refusal. answer ≡ Err refusal) }
{
    match found {
        Some(value) => entries_of(place, limit, value),
        None => Ok(&[]),
    }
}

/// A member's list of service principal names.
#[tactic(auto, unfolding(crate::specs::Lists::list_in))]
pub(crate) fn spns_in(
    alloc: Global,
    place: DirPlace,
    limit: usize,
    found: Option<&Value>,
) -> Result<Texts, DirRefusal>
    ensures { Gives result (list_in place limit (spn_of place) (option_map (λ v. view v.now) found.entry)) }
{
    let mut spns = Items::new(alloc);
    let values = entries_in(place, limit, found)?;
    for value in values {
        spns.push(spn_of(alloc, place, value)?)?;
    }
    Ok(spns)
}

/// A member's list of names of realms.
#[tactic(auto, unfolding(crate::specs::Lists::list_in))]
pub(crate) fn realm_names_in(
    alloc: Global,
    place: DirPlace,
    limit: usize,
    found: Option<&Value>,
) -> Result<Texts, DirRefusal>
    ensures { Gives result (list_in place limit (realm_name_of place) (option_map (λ v. view v.now) found.entry)) }
{
    let mut names = Items::new(alloc);
    let values = entries_in(place, limit, found)?;
    for value in values {
        names.push(realm_name_text_of(alloc, place, value)?)?;
    }
    Ok(names)
}

/// A member's list of security identifiers.
#[tactic(auto, unfolding(crate::specs::Lists::list_in))]
pub(crate) fn sids_in(
    alloc: Global,
    place: DirPlace,
    limit: usize,
    found: Option<&Value>,
) -> Result<Sids, DirRefusal>
    ensures { Gives result (list_in place limit (sid_of place) (option_map (λ v. view v.now) found.entry)) }
{
    let mut sids = Items::new(alloc);
    let values = entries_in(place, limit, found)?;
    for value in values {
        sids.push(sid_of(place, value)?)?;
    }
    Ok(sids)
}

/// A member's list of numbers.
#[tactic(auto, unfolding(crate::specs::Lists::list_in))]
pub(crate) fn numbers_in(
    alloc: Global,
    place: DirPlace,
    limit: usize,
    found: Option<&Value>,
) -> Result<Numbers, DirRefusal>
    ensures { Gives result (list_in place limit (number_of place 0 4294967295) (option_map (λ v. view v.now) found.entry)) }
{
    let mut numbers = Items::new(alloc);
    let values = entries_in(place, limit, found)?;
    for value in values {
        numbers.push(number_of(place, value, 0, u32::MAX)?)?;
    }
    Ok(numbers)
}
