//! Whose key opens a ticket that is shown.

ghost use Rattle.std.specs.Prelude.{◌≡◌, ◌<◌, IfOk, IfSome, Some, length, slice_get};
ghost use Rattle.dir_records.specs.declared.records.RealmRec.{RealmRec};
ghost use Rattle.ticket_codec.specs.Roles.{cross_place, evidence_place, header_place, holder_place, holding, is_krbtgt_of};

use crate::holding::{Holding, aim_holding, find_trust};
use crate::role::Role;
use dir_core::{Aim, Directory, RealmRec};
use krb_names::Principal;
use krb_tickets::Ticket;
use route_rules::resolve_account;
use std::alloc::{AllocError, Global};

/// Whether a name is that of the ticket-granting service of the realm of this name.
fn is_krbtgt_of(realm: &str, name: &Principal) -> bool
    ensures { result ≡ is_krbtgt_of realm.now name.now }
{
    match name.parts.as_slice() {
        [service, of] => service.as_str() == "krbtgt" && of.as_str() == realm,
        _ => false,
    }
}

/// A cross-realm ticket-granting ticket into a realm.
fn cross_place(dir: &Directory, realm: &RealmRec, ticket: &Ticket) -> Option<(u32, Aim)>
    ensures exact { result ≡ cross_place dir.now realm.now ticket.now }
    ensures within { IfSome result (λ place. place.0 < length dir.now.realms) }
{
    let name = realm.name.as_str();
    if !is_krbtgt_of(name, &ticket.sname) || ticket.realm == realm.name {
        return None;
    }
    let issuer = dir.realm_by_name(ticket.realm.as_str())?;
    let hop = find_trust(dir, issuer, name)?;
    Some((issuer, Aim::Hop(hop)))
}

/// A ticket-granting ticket of the realm at an index, local or cross-realm.
fn header_place(dir: &Directory, at: u32, realm: &RealmRec, ticket: &Ticket) -> Option<(u32, Aim)>
    requires { at < length dir.now.realms }
    ensures exact { result ≡ header_place dir.now at realm.now ticket.now }
    ensures within { IfSome result (λ place. place.0 < length dir.now.realms) }
{
    if is_krbtgt_of(realm.name.as_str(), &ticket.sname) && ticket.realm == realm.name {
        Some((at, Aim::Krbtgt))
    } else {
        cross_place(dir, realm, ticket)
    }
}

/// A ticket of the realm at an index for the account at an index.
fn evidence_place(
    dir: &Directory,
    at: u32,
    realm: &RealmRec,
    account: u32,
    ticket: &Ticket,
) -> Option<(u32, Aim)>
    requires { at < length dir.now.realms }
    ensures exact { result ≡ evidence_place dir.now at realm.now account ticket.now }
    ensures within { IfSome result (λ place. place.0 < length dir.now.realms) }
{
    if ticket.realm == realm.name
        && resolve_account(dir, at, &ticket.sname) == Some((at, account))
    {
        Some((at, Aim::Account(account)))
    } else {
        None
    }
}

/// For whom a ticket is sealed that is shown at the realm at an index: the index of the realm that sealed it, and its
/// aim there.
#[tactic(auto, unfolding(crate::specs::Roles::holder_place))]
fn find_place(dir: &Directory, at: u32, role: Role, ticket: &Ticket) -> Option<(u32, Aim)>
    requires { at < length dir.now.realms }
    ensures exact { result ≡ holder_place dir.now at role ticket.now }
    ensures within { IfSome result (λ place. place.0 < length dir.now.realms) }
{
    let realm = dir.realm(at);
    match role {
        Role::Header => header_place(dir, at, realm, ticket),
        Role::Evidence(account) => evidence_place(dir, at, realm, account, ticket),
        Role::CrossEvidence => cross_place(dir, realm, ticket),
    }
}

/// Whose key opens a ticket that is shown at the realm at an index.
#[tactic(auto, unfolding(crate::specs::Roles::holding))]
pub(crate) fn find_holding(
    alloc: Global,
    dir: &Directory,
    at: u32,
    role: Role,
    ticket: &Ticket,
) -> Result<Option<Holding>, AllocError>
    requires { at < length dir.now.realms }
    ensures { IfOk result (λ held. held ≡ holding dir.now at role ticket.now) }
{
    match find_place(dir, at, role, ticket) {
        Some((realm, aim)) => aim_holding(alloc, dir, realm, aim),
        None => Ok(None),
    }
}
