//! What a cross-realm ticket-granting ticket may tell (RFC 4120, section 2.7; MS-PAC, section 4.1.2.2).
ghost use Rattle.std.specs.Prelude.{◌≡◌, ◌<◌, MatchResult, None, Some, length};
ghost use Rattle.std.specs.List.{list_all};
ghost use Rattle.kdc_prelude.specs.Verdicts.{first_failing};
ghost use Rattle.dir_core.specs.Lookups.{is_reached};
ghost use Rattle.route_rules.specs.Cross.{cross_rules, is_sid_in, is_sid_of, subject_is_reached, way_is_reached};

use dir_core::{Directory, RealmRec};
use kdc_records::{Rule, TicketRec, require};
use krb_names::{Sid, Text};

/// As many realms on the way are too many.
const TOO_MANY_REALMS: usize = 32;

/// Whether the SID is the realm's and one number.
fn is_sid_of(sid: &Sid, realm: &RealmRec) -> bool
    ensures { result ≡ is_sid_of sid.now realm.now }
{
    let numbers = sid.numbers();
    let domain = &numbers[..numbers.len() - 1];
    sid.authority() == realm.sid.authority() && domain == realm.sid.numbers()
}

/// Whether the SID is that of the realm of this name and one number.
fn is_sid_in(dir: &Directory, sid: &Sid, name: &str) -> bool
    ensures { result ≡ is_sid_in dir.now sid.now name.now }
{
    match dir.realm_by_name(name) {
        Some(realm) => is_sid_of(sid, dir.realm(realm)),
        None => false,
    }
}

/// G15: the trust with the issuing realm reaches the user's realm, and the user's SID is that realm's and one number.
fn subject_is_reached(dir: &Directory, at: u32, from: u32, rec: &TicketRec) -> bool
    requires at { at < length dir.now.realms }
    requires from { from < length dir.now.realms }
    ensures { result ≡ subject_is_reached dir.now at from rec.now }
{
    let realm = rec.subject.realm.as_str();
    dir.reached(at, from, realm) && is_sid_in(dir, &rec.subject.sid, realm)
}

/// G16: the trust with the issuing realm reaches each transited realm, and there are fewer than 32.
fn way_is_reached(dir: &Directory, at: u32, from: u32, rec: &TicketRec) -> bool
    requires at { at < length dir.now.realms }
    requires from { from < length dir.now.realms }
    ensures { result ≡ way_is_reached dir.now at from rec.now }
{
    are_reached(dir, at, from, rec.transited.as_slice())
        && rec.transited.as_slice().len() < TOO_MANY_REALMS
}

/// Whether the trust reaches each realm of these names.
fn are_reached(dir: &Directory, at: u32, from: u32, realms: &[Text]) -> bool
    requires at { at < length dir.now.realms }
    requires from { from < length dir.now.realms }
    ensures { result ≡ list_all (is_reached dir.now at from) realms.now }
{
    realms
        .iter()
        .all(|realm| dir.reached(at, from, realm.as_str()))
}

/// Whether a ticket that the realm at the index `from` issued for the realm at the index `at` keeps to what the trust of
/// the latter in the former reaches.
///
/// # Errors
/// G15 where the trust does not reach the user's realm, or the user's SID is not that realm's and one number; else G16
/// where it does not reach each transited realm, or there are 32 or more.
pub fn cross_ok(dir: &Directory, at: u32, from: u32, rec: &TicketRec) -> Result<(), Rule>
    requires at { at < length dir.now.realms }
    requires from { from < length dir.now.realms }
    ensures first { MatchResult result (λ done. first_failing (cross_rules dir.now at from rec.now) ≡ None) (λ rule. first_failing (cross_rules dir.now at from rec.now) ≡ Some rule) }
{
    require(Rule::G15, subject_is_reached(dir, at, from, rec))?;
    require(Rule::G16, way_is_reached(dir, at, from, rec))
}
