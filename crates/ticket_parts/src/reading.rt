//! Reading the record that a part tells of.

ghost use Rattle.std.specs.Prelude.{◌≡◌, ◌<◌, ◌≤◌, ◌^◌, true, IfOk, IfSome, None, Some, option_map, length};
ghost use Rattle.krb_names.specs.Pieces.{is_name};
ghost use Rattle.krb_tickets.specs.Pac.{pac_of};
ghost use Rattle.pac_buffers.specs.Container.{pac_fault};
ghost use Rattle.ticket_laws.specs.Writable.{IsWritablePart};
ghost use Rattle.ticket_parts.specs.Records.{client_agrees, delegation_from, has_names, record_by, record_of, record_with, subject_of};
ghost use Rattle.ticket_parts.specs.Sound.{IsSound};

use crate::pac_reading::read_pac;
use crate::pac_values::{PacValue, client_name, filetime};
use kdc_records::{Delegation, Holder, Subject, TicketRec};
use krb_names::{NameRefusal, Numbers, Realm, Text, TryClone, parse_realm};
use krb_tickets::EncTicketPart;
use pac_buffers::{ClientInfo, DelegationInfo, PacView};
use pac_logon::LogonInfo;
use std::alloc::{AllocError, Global};

/// The record that a part tells of. Nothing in it is certified: the signatures of the PAC are compared elsewhere.
#[derive(Debug, Drop)]
pub struct ReadRecord {
    pub rec: TicketRec,
    /// Whether the client information has the ticket's authtime and the name that it should have.
    pub agrees: bool,
}

/// The realm of a name that is one.
fn realm_of(alloc: Global, name: &str) -> Result<Realm, AllocError>
    requires { is_name name.now ≡ true }
    ensures { IfOk result (λ realm. realm ≡ name.now) }
{
    match parse_realm(alloc, name) {
        Ok(realm) => Ok(realm),
        Err(NameRefusal::NoMemory) => Err(AllocError),
        Err(_) => unreachable!(),
    }
}

/// The user of logon information whose names are names.
fn subject_of(alloc: Global, info: &LogonInfo) -> Result<Subject, AllocError>
    requires realm { is_name info.now.subject.domain ≡ true }
    requires few { length info.now.subject.domain_sid.numbers ≤ 14 }
    ensures { IfOk result (λ subject. subject ≡ subject_of info.now) }
{
    let user = &info.subject;
    Ok(Subject {
        name: user.name.try_clone(alloc)?,
        realm: realm_of(alloc, user.domain.as_str())?,
        sid: info.subject_sid(),
        control: user.control,
        groups: user.groups.try_clone(alloc)?,
    })
}

fn delegation_from(info: Option<DelegationInfo>) -> Option<Delegation>
    ensures { result ≡ option_map delegation_from info }
{
    let DelegationInfo { target, services } = info?;
    Some(Delegation { target, services })
}

/// Whether the client information has the ticket's authtime and the name that it should have.
fn client_agrees(alloc: Global, part: &EncTicketPart, value: &PacValue) -> Result<bool, AllocError>
    ensures { IfOk result (λ agrees. agrees ≡ client_agrees part.now value.now) }
{
    let user = &value.logon.subject;
    let name = client_name(
        alloc,
        user.name.as_str(),
        user.domain.as_str(),
        &part.client,
    )?;
    Ok(value.client.time == filetime(part.auth) && value.client.name == name)
}

fn record_with(
    alloc: Global,
    holder: &Holder,
    part: &EncTicketPart,
    value: PacValue,
) -> Result<TicketRec, AllocError>
    requires names { has_names value ≡ true }
    requires few { length value.logon.subject.domain_sid.numbers ≤ 14 }
    ensures { IfOk result (λ made. made ≡ record_with holder.now part.now value) }
{
    let subject = subject_of(alloc, &value.logon)?;
    let PacValue {
        logon: _,
        client: _,
        delegation,
    } = value;
    Ok(TicketRec {
        holder: holder.try_clone(alloc)?,
        client: part.client.try_clone(alloc)?,
        subject,
        flags: part.flags,
        session: part.key,
        auth: part.auth,
        start: part.start.unwrap_or(part.auth),
        end: part.end,
        transited: part.transited.try_clone(alloc)?,
        delegation: delegation_from(delegation),
    })
}

fn record_by(
    alloc: Global,
    holder: &Holder,
    part: &EncTicketPart,
    pac: &PacView,
) -> Result<Option<ReadRecord>, AllocError>
    requires few { length pac.now < 2 ^ 32 }
    requires well { pac_fault pac.now ≡ None }
    ensures { IfOk result (λ found. found ≡ record_by holder.now part.now pac.now) }
{
    let Some(value) = read_pac(alloc, pac)? else {
        return Ok(None);
    };
    let agrees = client_agrees(alloc, part, &value)?;
    let rec = record_with(alloc, holder, part, value)?;
    Ok(Some(ReadRecord { rec, agrees }))
}

/// The record of a part that this holder's key opened, read of the part's PAC; none where that says nothing (as
/// [`read_pac`] tells).
pub fn read_record(
    alloc: Global,
    holder: &Holder,
    part: &EncTicketPart,
    pac: &PacView,
) -> Result<Option<ReadRecord>, AllocError>
    requires found { pac_of part.now ≡ Some pac.now }
    requires few { length pac.now < 2 ^ 32 }
    requires well { pac_fault pac.now ≡ None }
    ensures exact { IfOk result (λ found. found ≡ record_of holder.now part.now) }
    // A part can be made of it, where this one can be written.
    ensures sound { IsWritablePart part.now → IfOk result (λ found. IfSome found (λ read. IsSound read.rec)) }
{
    record_by(alloc, holder, part, pac)
}
