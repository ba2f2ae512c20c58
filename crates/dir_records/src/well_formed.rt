//! Why realms make no directory.
ghost use Rattle.std.specs.Prelude.{◌≡◌, ◌<◌, ◌≤◌, ◌^◌, All, IfNone, IfOk, length, true};
ghost use Rattle.kdc_prelude.specs.Verdicts.{first_failing};
ghost use Rattle.dir_records.specs.WellFormed.{clash_refusal, first_refusal, has_few_spent, is_well_formed, kept_rows, refused_for};

use crate::duplicates::{find_duplicate, find_shared_key};
use crate::limits::MAX_SPENT;
use crate::members::find_member_refusal;
use crate::records::Contents;
use crate::references::find_unknown_reference;
use crate::refusal::{DirCause, DirPlace, DirRefusal};
use std::alloc::{AllocError, Global};

/// The first reason for which contents make no directory.
pub fn find_refusal(alloc: Global, contents: &Contents) -> Result<Option<DirRefusal>, AllocError>
    ensures { IfOk result (λ refusal. refusal ≡ first_refusal contents.now) }
{
    match find_member_refusal(alloc, contents.realms.as_slice())? {
        Some(refusal) => Ok(Some(refusal)),
        None if has_few_spent(contents) => find_clash(alloc, contents),
        None => Ok(Some(DirRefusal {
            cause: DirCause::TooMany,
            place: DirPlace::Whole,
        })),
    }
}

/// The first reason for which contents make no directory after a change to one.
#[tactic(auto, unfolding(crate::specs::WellFormed::is_well_formed))]
pub fn find_change_cause(alloc: Global, contents: &Contents) -> Result<Option<DirCause>, AllocError>
    requires few { length contents.now.realms ≤ 64 }
    requires accounts { All (λ realm. length realm.accounts < 2 ^ 32) contents.now.realms }
    requires trusts { All (λ realm. length realm.trusts ≤ 32) contents.now.realms }
    ensures first { IfOk result (λ cause. cause ≡ first_failing (kept_rows contents.now)) }
    ensures well { IfOk result (λ cause. IfNone cause (is_well_formed contents.now ≡ true)) }
{
    let realms = contents.realms.as_slice();
    if find_unknown_reference(realms).is_some() {
        return Ok(Some(DirCause::UnknownRef));
    }
    if find_duplicate(alloc, contents.spent_numbers.as_slice(), realms)?.is_some() {
        return Ok(Some(DirCause::Duplicate));
    }
    if find_shared_key(alloc, contents.spent_keys.as_slice(), realms)?.is_some() {
        return Ok(Some(DirCause::SameKey));
    }
    if find_member_refusal(alloc, realms)?.is_some() || !has_few_spent(contents) {
        return Ok(Some(DirCause::TooMany));
    }
    Ok(None)
}

/// Whether no more keys and numbers are spent than may be.
fn has_few_spent(contents: &Contents) -> bool
    ensures { result ≡ has_few_spent contents.now }
{
    contents.spent_keys.len() <= MAX_SPENT && contents.spent_numbers.len() <= MAX_SPENT
}

/// What stands twice, or is referred to and is not there, in realms whose members keep their limits.
fn find_clash(alloc: Global, contents: &Contents) -> Result<Option<DirRefusal>, AllocError>
    requires few { length contents.now.realms ≤ 64 }
    requires accounts { All (λ realm. length realm.accounts < 2 ^ 32) contents.now.realms }
    requires trusts { All (λ realm. length realm.trusts ≤ 32) contents.now.realms }
    ensures { IfOk result (λ refusal. refusal ≡ clash_refusal contents.now) }
{
    let realms = contents.realms.as_slice();
    if let Some(place) = find_duplicate(alloc, contents.spent_numbers.as_slice(), realms)? {
        return Ok(refused_for(DirCause::Duplicate, Some(place)));
    }
    if let Some(place) = find_shared_key(alloc, contents.spent_keys.as_slice(), realms)? {
        return Ok(refused_for(DirCause::SameKey, Some(place)));
    }
    Ok(refused_for(DirCause::UnknownRef, find_unknown_reference(realms)))
}

fn refused_for(cause: DirCause, found: Option<DirPlace>) -> Option<DirRefusal>
    ensures { result ≡ refused_for cause found }
{
    match found {
        Some(place) => Some(DirRefusal { cause, place }),
        None => None,
    }
}
