//! What a PAC says of a record: logon information, client information and delegation information.

ghost use Rattle.std.specs.Prelude.{◌≡◌, ◌++◌, ◌∷◌, ◌≤◌, IfOk, length};
ghost use Rattle.ticket_parts.specs.Names.{client_name, filetime};
ghost use Rattle.ticket_parts.specs.Parts.{client_of, delegation_of, logon_of};

use kdc_records::{Delegation, TicketRec, is_user};
use krb_names::{KTime, Principal, Text, TryClone};
use pac_buffers::{ClientInfo, DelegationInfo};
use pac_logon::{LogonInfo, Subject4};
use std::alloc::{AllocError, Global};

/// What a PAC says.
#[derive(Debug, Drop)]
pub struct PacValue {
    pub logon: LogonInfo,
    pub client: ClientInfo,
    pub delegation: Option<DelegationInfo>,
}

/// FILETIME of a time (MS-DTYP, section 2.3.3).
pub fn filetime(time: KTime) -> u64
    ensures { result ≡ filetime time }
{
    116_444_736_000_000_000 + 10_000_000 * time.secs()
}

/// The name in the client information of a user's ticket: the user's; where the client is another, with `@` and the user's
/// realm behind it.
pub fn client_name(
    alloc: Global,
    name: &str,
    realm: &str,
    client: &Principal,
) -> Result<Text, AllocError>
    ensures { IfOk result (λ text. text ≡ client_name name.now realm.now client.now) }
{
    if is_user(name, realm, client) {
        return Text::copy(alloc, name);
    }
    let mut text = String::from_str(alloc, name)?;
    text.push_str("@")?;
    text.push_str(realm)?;
    Ok(Text::from_string(text))
}

/// The logon information of a record.
pub fn logon_of(alloc: Global, rec: &TicketRec) -> Result<LogonInfo, AllocError>
    requires { 2 ≤ length rec.now.subject.sid.numbers }
    ensures { IfOk result (λ info. info ≡ logon_of rec.now) }
{
    let subject = &rec.subject;
    let (domain_sid, number) = subject.sid.apart();
    Ok(LogonInfo {
        subject: Subject4 {
            name: subject.name.try_clone(alloc)?,
            domain: Text::copy(alloc, subject.realm.as_str())?,
            domain_sid,
            number,
            control: subject.control,
            groups: subject.groups.try_clone(alloc)?,
        },
        time: filetime(rec.auth),
    })
}

/// The client information of a record.
pub fn client_of(alloc: Global, rec: &TicketRec) -> Result<ClientInfo, AllocError>
    ensures { IfOk result (λ info. info ≡ client_of rec.now) }
{
    let subject = &rec.subject;
    Ok(ClientInfo {
        time: filetime(rec.auth),
        name: client_name(
            alloc,
            subject.name.as_str(),
            subject.realm.as_str(),
            &rec.client,
        )?,
    })
}

/// The delegation information of a record.
pub fn delegation_of(alloc: Global, delegation: &Delegation) -> Result<DelegationInfo, AllocError>
    ensures { IfOk result (λ info. info ≡ delegation_of delegation.now) }
{
    Ok(DelegationInfo {
        target: delegation.target.try_clone(alloc)?,
        services: delegation.services.try_clone(alloc)?,
    })
}
