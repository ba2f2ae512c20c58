//! Records made into parts, and read again.
ghost use Rattle.std.specs.Prelude.{◌≡◌, pos, [], ◌∷◌, IfOk, IfSome, codes};
ghost use Rattle.pac_laws.specs.Writable.{IsWritableDelegation};
ghost use Rattle.ticket_parts.specs.Parts.{delegation_of};
ghost use Rattle.ticket_parts.specs.Sound.{IsSound, IsSoundSubject};

use kdc_records::{Delegation, Holder, Subject, TicketRec};
use krb_names::{
    Bytes, Etype, Items, KTime, Key, Numbers, Principal, Realm, Sid, Text, Texts, parse_realm,
};
use krb_tickets::{AuthItem, EncTicketPart, pac_of};
use pac_buffers::PacView;
use std::alloc::{AllocError, Global};
use std::test::Fail;
use ticket_parts::*;

fn holder_key() -> Key {
    Key::new(Etype::Aes256, &[1; 32])
}

fn realm_key() -> Key {
    Key::new(Etype::Aes128, &[2; 16])
}

fn one_text(alloc: Global, text: &str) -> Result<Texts, AllocError>
    ensures { IfOk result (λ texts. texts ≡ text.now ∷ []) }
{
    let mut texts = Items::new(alloc);
    texts.push(Text::copy(alloc, text)?)?;
    Ok(texts)
}

fn one_number(alloc: Global, number: u32) -> Result<Numbers, AllocError>
    ensures { IfOk result (λ numbers. numbers ≡ number ∷ []) }
{
    let mut numbers = Items::new(alloc);
    numbers.push(number)?;
    Ok(numbers)
}

fn realm(alloc: Global) -> Result<Realm, Fail>
    ensures { IfOk result (λ realm. realm ≡ codes "R") }
{
    Ok(parse_realm(alloc, "R")?)
}

fn client(alloc: Global) -> Result<Principal, Fail>
    ensures { IfOk result (λ made. made ≡ record { kind = pos 1; parts = codes "web" ∷ []; realm = codes "R" }) }
{
    Ok(Principal {
        kind: 1,
        parts: one_text(alloc, "web")?,
        realm: realm(alloc)?,
    })
}

fn user(alloc: Global) -> Result<Subject, Fail>
    ensures { IfOk result IsSoundSubject }
{
    Ok(Subject {
        name: Text::copy(alloc, "user")?,
        realm: realm(alloc)?,
        sid: Sid::new(5, &[21, 1105]),
        control: 16,
        groups: one_number(alloc, 513)?,
    })
}

fn delegation(alloc: Global) -> Result<Delegation, Fail>
    ensures { IfOk result (λ d. IsWritableDelegation (delegation_of d)) }
{
    Ok(Delegation {
        target: Text::copy(alloc, "http/files")?,
        services: one_text(alloc, "web@R")?,
    })
}

/// A ticket of a user that another client got.
fn record(alloc: Global, holder: Holder, delegation: Option<Delegation>) -> Result<TicketRec, Fail>
    requires { IfSome delegation (λ d. IsWritableDelegation (delegation_of d)) }
    ensures { IfOk result IsSound }
{
    Ok(TicketRec {
        holder,
        client: client(alloc)?,
        subject: user(alloc)?,
        flags: 0x4020_0000,
        session: Key::new(Etype::Aes256, &[3; 32]),
        auth: KTime::new(1000),
        start: KTime::new(2000),
        end: KTime::new(3000),
        transited: Items::new(alloc),
        delegation,
    })
}

fn changed_bytes(alloc: Global, content: &[u8], at: usize) -> Result<Bytes, AllocError> {
    let mut bytes = content.to_vec(alloc)?;
    if at < bytes.len() {
        bytes[at] ^= 1;
    }
    Ok(Bytes::from_vec(bytes))
}

/// The part with another byte at this place of its one item.
fn changed(alloc: Global, mut part: EncTicketPart, at: usize) -> Result<EncTicketPart, AllocError> {
    let content = match part.items.get(0) {
        Some(item) => changed_bytes(alloc, item.content.as_slice(), at)?,
        None => Items::new(alloc),
    };
    part.items = Items::new(alloc);
    part.items.push(AuthItem { kind: 1, content })?;
    Ok(part)
}

/// What is told of a record's part with another byte at this place, where there is such a place.
fn told(alloc: Global, rec: &TicketRec, at: usize) -> Result<Option<ReadRecord>, AllocError>
    requires { IsSound rec.now }
{
    let part = make_part(alloc, rec, &holder_key(), &realm_key())?;
    let part = changed(alloc, part, at)?;
    let Some(bytes) = pac_of(&part) else {
        return Ok(None);
    };
    if bytes.len() > 0xffff_ffff {
        return Ok(None);
    }
    match PacView::read(bytes) {
        Ok(pac) => read_record(alloc, &rec.holder, &part, &pac),
        Err(_) => Ok(None),
    }
}

fn account(alloc: Global) -> Result<Holder, AllocError> {
    Ok(Holder::Account {
        realm: Text::copy(alloc, "R")?,
        number: 1200,
        version: 3,
    })
}

fn krbtgt(alloc: Global) -> Result<Holder, AllocError> {
    Ok(Holder::Krbtgt {
        realm: Text::copy(alloc, "R")?,
        version: 1,
    })
}

/// What is told of the part of a service ticket that was got by delegation.
fn told_of_account(alloc: Global) -> Result<Option<ReadRecord>, Fail> {
    let delegation = delegation(alloc)?;
    let rec = record(alloc, account(alloc)?, Some(delegation))?;
    Ok(told(alloc, &rec, usize::MAX)?)
}

/// What is told of the part of a ticket-granting ticket with another byte at this place of its one item.
fn told_of_krbtgt(alloc: Global, at: usize) -> Result<Option<ReadRecord>, Fail> {
    let rec = record(alloc, krbtgt(alloc)?, None)?;
    Ok(told(alloc, &rec, at)?)
}

#[test]
fn a_part_tells_of_its_record(rt: HostRuntime) -> Result<(), Fail> {
    let told = told_of_account(rt.alloc())?.ok_or("no record")?;
    assert!(rt; told.agrees);
    assert!(rt; told.rec.delegation.is_some());
    assert!(rt; told.rec.subject.sid == Sid::new(5, &[21, 1105]));
    assert!(rt; told.rec.start == KTime::new(2000));
    Ok(())
}

/// The PAC starts at 22 of the item, with the count of its buffers; their version is read past.
#[test]
fn a_changed_pac_is_told(rt: HostRuntime) -> Result<(), Fail> {
    assert!(rt; told_of_krbtgt(rt.alloc(), 22)?.is_none());
    assert!(rt; told_of_krbtgt(rt.alloc(), 26)?.is_some());
    Ok(())
}
