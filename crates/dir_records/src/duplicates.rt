//! What stands twice in a directory though it may stand only once.
ghost use Rattle.std.specs.Prelude.{◌≡◌, ◌<◌, ◌≤◌, ◌^◌, ◌++◌, All, IfOk, length, nat_eq};
ghost use Rattle.std.specs.List.{list_any};
ghost use Rattle.kdc_prelude.specs.Distinct.{all_distinct};
ghost use Rattle.kdc_prelude.specs.Texts.{same_text};
ghost use Rattle.kdc_prelude.specs.Verdicts.{first_failing};
ghost use Rattle.dir_records.specs.Clashes.{duplicate, earlier, entry_repeat, has_distinct_entries, in_realms, is_before, kind_at, number_at, overlaps, realm_at, realm_names, realm_sids, shared_key};
ghost use Rattle.dir_records.specs.Marks.{account_marks, key_marks, marks_of, name_marks, number_marks, partner_marks, spent_key_marks, spent_number_marks, spn_marks, trust_marks};
ghost use Rattle.dir_records.specs.Repeats.{first_repeat};

use crate::entry::are_distinct;
use crate::marks::{key_marks, name_marks, number_marks, partner_marks, realm_names, spn_marks};
use crate::records::{Account, KeyRec, RealmRec, SpentNumber, Trust};
use crate::refusal::DirPlace;
use crate::repeats::{find_repeated_number, find_repeated_octets};
use krb_names::Sid;
use std::alloc::{AllocError, Global};

/// The earliest place at which something stands again that may stand only once, where these numbers are spent.
pub(crate) fn find_duplicate(
    alloc: Global,
    spent: &[SpentNumber],
    realms: &[RealmRec],
) -> Result<Option<DirPlace>, AllocError>
    requires few { length realms.now ≤ 64 }
    requires accounts { All (λ realm. length realm.accounts < 2 ^ 32) realms.now }
    requires trusts { All (λ realm. length realm.trusts ≤ 32) realms.now }
    ensures { IfOk result (λ place. place ≡ duplicate spent.now realms.now) }
{
    let realm_name = find_repeated_realm_name(alloc, realms)?;
    let sid = find_overlapping_sid(alloc, realms)?;
    let name = find_repeated_name(alloc, realms)?;
    let number = find_repeated_account_number(alloc, spent, realms)?;
    let partner = find_repeated_partner(alloc, realms)?;
    let spn = find_repeated_spn(alloc, realms)?;
    let entry = find_repeated_entry(realms);
    Ok(earlier(
        realm_name,
        earlier(
            sid,
            earlier(name, earlier(number, earlier(partner, earlier(spn, entry)))),
        ),
    ))
}

/// The first place at which a key stands again, where these are spent.
pub(crate) fn find_shared_key(
    alloc: Global,
    spent: &[KeyRec],
    realms: &[RealmRec],
) -> Result<Option<DirPlace>, AllocError>
    requires few { length realms.now ≤ 64 }
    requires accounts { All (λ realm. length realm.accounts < 2 ^ 32) realms.now }
    requires trusts { All (λ realm. length realm.trusts ≤ 32) realms.now }
    ensures { IfOk result (λ place. place ≡ shared_key spent.now realms.now) }
{
    let marks = key_marks(alloc, spent, realms)?;
    find_repeated_octets(alloc, marks.as_slice())
}

fn earlier(place: Option<DirPlace>, other: Option<DirPlace>) -> Option<DirPlace>
    ensures { result ≡ earlier place other }
{
    match (place, other) {
        (None, other) => other,
        (Some(place), None) => Some(place),
        (Some(place), Some(other)) => Some(if is_before(other, place) {
            other
        } else {
            place
        }),
    }
}

/// Whether a place comes before another: by realm, then the realm itself, its accounts, its trusts, each by number.
fn is_before(place: DirPlace, other: DirPlace) -> bool
    ensures { result ≡ is_before place other }
{
    let (realm, kind, number) = order_of(place);
    let (other_realm, other_kind, other_number) = order_of(other);
    realm < other_realm
        || realm == other_realm
            && (kind < other_kind || kind == other_kind && number < other_number)
}

fn order_of(place: DirPlace) -> (u32, u32, u32)
    ensures { result ≡ (realm_at place, kind_at place, number_at place) }
{
    match place {
        DirPlace::Whole => (0, 0, 0),
        DirPlace::Realm(realm) => (realm, 0, 0),
        DirPlace::Account(realm, number) => (realm, 1, number),
        DirPlace::Trust(realm, number) => (realm, 2, number),
        DirPlace::Line(number) => (0, 3, number),
    }
}

fn find_repeated_realm_name(
    alloc: Global,
    realms: &[RealmRec],
) -> Result<Option<DirPlace>, AllocError>
    requires { length realms.now ≤ 64 }
    ensures { IfOk result (λ place. place ≡ first_repeat same_text (realm_names 0 realms.now)) }
{
    let marks = realm_names(alloc, realms)?;
    find_repeated_octets(alloc, marks.as_slice())
}

/// The first realm whose SID is that of one before it, or extends it or is extended by it.
fn find_overlapping_sid(alloc: Global, realms: &[RealmRec]) -> Result<Option<DirPlace>, AllocError>
    requires { length realms.now ≤ 64 }
    ensures { IfOk result (λ place. place ≡ first_repeat overlaps (realm_sids 0 realms.now)) }
{
    let mut seen = Vec::new(alloc);
    for (at, realm) in realms.iter().enumerate() {
        if overlaps_any(&realm.sid, seen.as_slice()) {
            return Ok(Some(DirPlace::Realm(at as u32)));
        }
        seen.insert(0, realm.sid)?;
    }
    Ok(None)
}

fn overlaps_any(sid: &Sid, others: &[Sid]) -> bool
    ensures { result ≡ list_any (overlaps sid.now) others.now }
{
    for other in others {
        if overlaps(sid, other) {
            return true;
        }
    }
    false
}

fn overlaps(sid: &Sid, other: &Sid) -> bool
    ensures { result ≡ overlaps sid.now other.now }
{
    sid.authority() == other.authority()
        && (sid.numbers().starts_with(other.numbers())
            || other.numbers().starts_with(sid.numbers()))
}

fn find_repeated_name(alloc: Global, realms: &[RealmRec]) -> Result<Option<DirPlace>, AllocError>
    requires few { length realms.now ≤ 64 }
    requires accounts { All (λ realm. length realm.accounts < 2 ^ 32) realms.now }
    ensures { IfOk result (λ place. place ≡ in_realms (λ at realm. first_repeat same_text (name_marks at realm)) 0 realms.now) }
{
    for (at, realm) in realms.iter().enumerate() {
        let marks = name_marks(alloc, at as u32, realm)?;
        if let Some(place) = find_repeated_octets(alloc, marks.as_slice())? {
            return Ok(Some(place));
        }
    }
    Ok(None)
}

fn find_repeated_account_number(
    alloc: Global,
    spent: &[SpentNumber],
    realms: &[RealmRec],
) -> Result<Option<DirPlace>, AllocError>
    requires few { length realms.now ≤ 64 }
    requires accounts { All (λ realm. length realm.accounts < 2 ^ 32) realms.now }
    ensures { IfOk result (λ place. place ≡ in_realms (λ at realm. first_repeat nat_eq (spent_number_marks spent.now realm ++ number_marks at realm)) 0 realms.now) }
{
    for (at, realm) in realms.iter().enumerate() {
        let marks = number_marks(alloc, spent, at as u32, realm)?;
        if let Some(place) = find_repeated_number(alloc, marks.as_slice())? {
            return Ok(Some(place));
        }
    }
    Ok(None)
}

fn find_repeated_partner(alloc: Global, realms: &[RealmRec]) -> Result<Option<DirPlace>, AllocError>
    requires few { length realms.now ≤ 64 }
    requires trusts { All (λ realm. length realm.trusts ≤ 32) realms.now }
    ensures { IfOk result (λ place. place ≡ in_realms (λ at realm. first_repeat same_text (partner_marks at realm)) 0 realms.now) }
{
    for (at, realm) in realms.iter().enumerate() {
        let marks = partner_marks(alloc, at as u32, realm)?;
        if let Some(place) = find_repeated_octets(alloc, marks.as_slice())? {
            return Ok(Some(place));
        }
    }
    Ok(None)
}

fn find_repeated_spn(alloc: Global, realms: &[RealmRec]) -> Result<Option<DirPlace>, AllocError>
    requires few { length realms.now ≤ 64 }
    requires accounts { All (λ realm. length realm.accounts < 2 ^ 32) realms.now }
    ensures { IfOk result (λ place. place ≡ first_repeat same_text (marks_of spn_marks realms.now)) }
{
    let marks = spn_marks(alloc, realms)?;
    find_repeated_octets(alloc, marks.as_slice())
}

fn find_repeated_entry(realms: &[RealmRec]) -> Option<DirPlace>
    requires few { length realms.now ≤ 64 }
    requires accounts { All (λ realm. length realm.accounts < 2 ^ 32) realms.now }
    requires trusts { All (λ realm. length realm.trusts ≤ 32) realms.now }
    ensures { result ≡ in_realms entry_repeat 0 realms.now }
{
    for (at, realm) in realms.iter().enumerate() {
        if let Some(place) = find_entry_repeat(at as u32, realm) {
            return Some(place);
        }
    }
    None
}

fn find_entry_repeat(at: u32, realm: &RealmRec) -> Option<DirPlace>
    requires accounts { length realm.now.accounts < 2 ^ 32 }
    requires trusts { length realm.now.trusts ≤ 32 }
    ensures { result ≡ entry_repeat at realm.now }
{
    match find_repeat_in_accounts(at, realm.accounts.as_slice()) {
        Some(place) => Some(place),
        None => find_repeat_in_trusts(at, realm.trusts.as_slice()),
    }
}

fn find_repeat_in_accounts(at: u32, accounts: &[Account]) -> Option<DirPlace>
    requires { length accounts.now < 2 ^ 32 }
    ensures { result ≡ first_failing (account_marks has_distinct_entries at 1 accounts.now) }
{
    for (i, account) in accounts.iter().enumerate() {
        if !has_distinct_entries(account) {
            return Some(DirPlace::Account(at, i as u32 + 1));
        }
    }
    None
}

fn find_repeat_in_trusts(at: u32, trusts: &[Trust]) -> Option<DirPlace>
    requires { length trusts.now ≤ 32 }
    ensures { result ≡ first_failing (trust_marks (λ trust. all_distinct same_text trust.reach) at 1 trusts.now) }
{
    for (i, trust) in trusts.iter().enumerate() {
        if !are_distinct(trust.reach.as_slice()) {
            return Some(DirPlace::Trust(at, i as u32 + 1));
        }
    }
    None
}

fn has_distinct_entries(account: &Account) -> bool
    ensures { result ≡ has_distinct_entries account.now }
{
    are_distinct(account.classic.as_slice())
        && are_distinct(account.resource.as_slice())
        && are_distinct(account.groups.as_slice())
}
