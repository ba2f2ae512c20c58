//! What a request for S4U2proxy is granted (MS-SFU, section 3.2.5.2.3).
ghost use Rattle.std.specs.Prelude.{◌≡◌, ◌++◌, ◌<◌, IfOk, length};
ghost use Rattle.std.specs.Option.{option_copied};
ghost use Rattle.krb_names.specs.NameTexts.{name_text};
ghost use Rattle.proxy_rules.specs.ProxyRules.{delegation_made, proxy_flags, proxy_terms, requestor_text, services_of, target_text};

use crate::delegation_rules::{proxy_end, services_of};
use crate::evidence_rules::is_forwardable;
use crate::parties::is_local;
use dir_core::{Directory, RealmRec};
use kdc_records::{
    Aim, Delegation, Terms, TicketRec, Wish, bit_if, has_bit, kdc_option, session_type, ticket_flag,
};
use krb_names::{KTime, Moment, Principal, Text, Texts, push_joined, push_name};
use s4u_rules::issuer_is_appended;
use std::alloc::{AllocError, Global};

/// The flags of the ticket: forwardable where that is asked for and the evidence is.
fn proxy_flags(wish: &Wish, evidence: &TicketRec) -> u32
    ensures { result ≡ proxy_flags wish.now evidence.now }
{
    let forwardable = has_bit(wish.options, kdc_option::FORWARDABLE) && is_forwardable(evidence);
    bit_if(ticket_flag::FORWARDABLE, forwardable)
}

/// What the ticket has.
pub(crate) fn proxy_terms(
    dir: &Directory,
    realm: u32,
    now: Moment,
    wish: &Wish,
    header: &TicketRec,
    evidence: &TicketRec,
    aim: Aim,
) -> Terms
    requires { realm < length dir.now.realms }
    ensures { result ≡ proxy_terms dir.now realm now wish.now header.now evidence.now aim }
{
    Terms {
        aim,
        flags: proxy_flags(wish, evidence),
        start: KTime::new(now.secs),
        end: proxy_end(dir, realm, now, wish, header, evidence),
        session: session_type(wish.etypes.as_slice()),
        append: issuer_is_appended(evidence),
    }
}

/// The name that is asked for: its parts, joined by `/`.
fn target_text(alloc: Global, server: &Principal) -> Result<Text, AllocError>
    ensures { IfOk result (λ text. text ≡ target_text server.now) }
{
    let mut text = String::new(alloc);
    push_joined(&mut text, '/', server.parts.as_slice())?;
    Ok(Text::from_string(text))
}

/// A name and its realm, `NAME@REALM`.
fn name_text(alloc: Global, name: &Principal) -> Result<Text, AllocError>
    ensures { IfOk result (λ text. text ≡ name_text name.now) }
{
    let mut text = String::new(alloc);
    push_name(&mut text, name)?;
    Ok(Text::from_string(text))
}

/// The services that delegated, and the requestor after them where it is of this realm.
fn services_made(
    alloc: Global,
    realm: &RealmRec,
    header: &TicketRec,
    evidence: &TicketRec,
) -> Result<Texts, AllocError>
    ensures { IfOk result (λ made. made ≡ services_of evidence.now.delegation ++ requestor_text realm.now header.now) }
{
    let mut services = Texts::copy(alloc, services_of(evidence.delegation.as_ref()))?;
    if is_local(realm, header) {
        services.push(name_text(alloc, &header.client)?)?;
    }
    Ok(services)
}

/// How a granted ticket is delegated: to the name that is asked for, by the services that delegated its evidence, and by
/// the requestor after them where that is of this realm.
pub fn delegation_made(
    alloc: Global,
    realm: &RealmRec,
    server: &Principal,
    header: &TicketRec,
    evidence: &TicketRec,
) -> Result<Delegation, AllocError>
    ensures { IfOk result (λ made. made ≡ delegation_made realm.now server.now header.now evidence.now) }
{
    Ok(Delegation {
        target: target_text(alloc, server)?,
        services: services_made(alloc, realm, header, evidence)?,
    })
}
