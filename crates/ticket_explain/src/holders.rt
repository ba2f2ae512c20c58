//! Whose key opens a ticket.
ghost use Rattle.std.specs.Prelude.{◌≡◌, ◌++◌, ◌<◌, codes, IfOk, IfSome, length, OnOk, option_map, string_bytes};
ghost use Rattle.krb_names.specs.NameTexts.{at_realm};
ghost use Rattle.krb_names.specs.SidValue.{followed_by, sid_text};
ghost use Rattle.ticket_explain.specs.Holders.{account_given, account_text, aim_named, aim_text, held, held_by, krbtgt_realm, trust_text};

use dir_core::{Account, Aim, Directory, RealmRec, Trust};
use krb_names::{Principal, Sid, Text, push_at_realm, push_number, push_sid};
use krb_tickets::Ticket;
use route_rules::resolve_account;
use std::alloc::{AllocError, Global};
use ticket_codec::{Holding, aim_holding, find_trust};

/// Whose key opens a ticket.
#[derive(Debug, Drop)]
pub(crate) struct Held {
    /// The index of the realm that issued the ticket.
    pub realm: u32,
    /// For whom it is sealed, and the key.
    pub holding: Holding,
    /// The holder in words.
    pub text: Text,
}

/// `krbtgt@REALM`.
fn krbtgt_text(alloc: Global, realm: &RealmRec) -> Result<Text, AllocError>
    ensures { IfOk result (λ text. text ≡ at_realm (codes "krbtgt") realm.now.name) }
{
    let mut text = String::new(alloc);
    push_at_realm(&mut text, "krbtgt", realm.name.as_str())?;
    Ok(Text::from_string(text))
}

/// `trust REALM PARTNER`.
fn trust_text(alloc: Global, realm: &RealmRec, trust: &Trust) -> Result<Text, AllocError>
    ensures { IfOk result (λ text. text ≡ trust_text realm.now trust.now) }
{
    let mut text = String::from_str(alloc, "trust ")?;
    text.push_str(realm.name.as_str())?;
    text.push_str(" ")?;
    text.push_str(trust.partner.as_str())?;
    Ok(Text::from_string(text))
}

/// Adds the SID of the account of this number: the realm's, followed by it.
fn push_account_sid(text: &mut String, realm: &Sid, number: u32) -> Result<(), AllocError>
    ensures { OnOk result (string_bytes text.new ≡ string_bytes text.old ++ sid_text (followed_by realm.now number)) }
{
    push_sid(text, realm)?;
    text.push_str("-")?;
    push_number(text, u64::from(number))
}

/// `NAME@REALM SID`.
fn account_text(alloc: Global, realm: &RealmRec, account: &Account) -> Result<Text, AllocError>
    ensures { IfOk result (λ text. text ≡ account_text realm.now account.now) }
{
    let mut text = String::new(alloc);
    push_at_realm(&mut text, account.name.as_str(), realm.name.as_str())?;
    text.push_str(" ")?;
    push_account_sid(&mut text, &realm.sid, account.number)?;
    Ok(Text::from_string(text))
}

/// An aim of a realm in words.
fn aim_text(alloc: Global, realm: &RealmRec, aim: Aim) -> Result<Option<Text>, AllocError>
    ensures { IfOk result (λ text. text ≡ aim_text realm.now aim) }
{
    match aim {
        Aim::Krbtgt => Ok(Some(krbtgt_text(alloc, realm)?)),
        Aim::Hop(at) => match realm.trusts.get(at as usize) {
            Some(trust) => Ok(Some(trust_text(alloc, realm, trust)?)),
            None => Ok(None),
        },
        Aim::Account(at) => match realm.accounts.get(at as usize) {
            Some(account) => Ok(Some(account_text(alloc, realm, account)?)),
            None => Ok(None),
        },
    }
}

/// The realm of a name `krbtgt/REALM`.
fn krbtgt_realm(name: &Principal) -> Option<&str>
    ensures { option_map (λ realm. realm.now) result ≡ krbtgt_realm name.now.parts }
{
    match name.parts.as_slice() {
        [service, realm] => {
            if service.as_str() == "krbtgt" {
                Some(realm.as_str())
            } else {
                None
            }
        }
        _ => None,
    }
}

/// The index of the account that a name gives, where it is of the realm at an index.
#[tactic(auto, unfolding(crate::specs::Holders::account_given))]
fn account_given(dir: &Directory, at: u32, name: &Principal) -> Option<u32>
    requires { at < length dir.now.realms }
    ensures { result ≡ account_given dir.now at name.now }
{
    match resolve_account(dir, at, name) {
        Some((realm, account)) => { if realm == at { Some(account) } else { None } }
        None => None,
    }
}

fn hop_aim(trust: Option<u32>) -> Option<Aim>
    ensures { result ≡ option_map Aim.Hop trust }
{
    Some(Aim::Hop(trust?))
}

fn account_aim(account: Option<u32>) -> Option<Aim>
    ensures { result ≡ option_map Aim.Account account }
{
    Some(Aim::Account(account?))
}

/// What the realm at an index has sealed a ticket of this name for.
fn aim_named(dir: &Directory, at: u32, realm: &RealmRec, name: &Principal) -> Option<Aim>
    requires { at < length dir.now.realms }
    ensures { result ≡ aim_named dir.now at realm.now name.now (krbtgt_realm name.now.parts) }
{
    match krbtgt_realm(name) {
        Some(other) => {
            if other == realm.name.as_str() {
                Some(Aim::Krbtgt)
            } else {
                hop_aim(find_trust(dir, at, other))
            }
        }
        None => account_aim(account_given(dir, at, name)),
    }
}

/// The holder of an aim of the realm at an index, in words too.
fn held_by(
    alloc: Global,
    dir: &Directory,
    at: u32,
    realm: &RealmRec,
    aim: Aim,
) -> Result<Option<Held>, AllocError>
    requires { at < length dir.now.realms }
    ensures value { IfOk result (λ found. found ≡ held_by dir.now at realm.now aim) }
    ensures only { IfOk result (λ found. IfSome found (λ h. h.realm ≡ at)) }
{
    let Some(holding) = aim_holding(alloc, dir, at, aim)? else {
        return Ok(None);
    };
    match aim_text(alloc, realm, aim)? {
        Some(text) => Ok(Some(Held {
            realm: at,
            holding,
            text,
        })),
        None => Ok(None),
    }
}

/// The holder of a ticket's key, by the ticket's realm and name as the directory is now: of a name `krbtgt/REALM` the realm's
/// ticket-granting service or its trust in the other realm, else the account that the name gives, where it is of the ticket's
/// realm.
#[tactic(auto, unfolding(crate::specs::Holders::held))]
pub(crate) fn find_holder(
    alloc: Global,
    dir: &Directory,
    ticket: &Ticket,
) -> Result<Option<Held>, AllocError>
    ensures value { IfOk result (λ found. found ≡ held dir.now ticket.now) }
    ensures within { IfOk result (λ found. IfSome found (λ h. h.realm < length dir.now.realms)) }
{
    let Some(at) = dir.realm_by_name(ticket.realm.as_str()) else {
        return Ok(None);
    };
    let realm = dir.realm(at);
    match aim_named(dir, at, realm, &ticket.sname) {
        Some(aim) => held_by(alloc, dir, at, realm, aim),
        None => Ok(None),
    }
}
