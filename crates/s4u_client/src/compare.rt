//! What of a reply is compared with what was asked for (RFC 4120, sections 3.1.5 and 3.3.4).
ghost use Rattle.std.specs.Prelude.{◌≡◌, ◌≢◌, IfOk, MatchResult, None, Some, decimal};
ghost use Rattle.std.specs.Fmt.{signed_decimal};
ghost use Rattle.std.specs.Ordering.{int_eq};
ghost use Rattle.kdc_prelude.specs.Verdicts.{first_failing};
ghost use Rattle.krb_names.specs.Etypes.{etype_number};
ghost use Rattle.krb_names.specs.NameTexts.{name_text};
ghost use Rattle.krb_names.specs.Principals.{same_principal};
ghost use Rattle.krb_tickets.specs.Pac.{is_number};
ghost use Rattle.s4u_client.specs.Finishing.{Compares, client_is_right, client_row, comparisons, etype_row, is_asked_enterprise, is_enterprise_of, is_krbtgt_in, names_krbtgt, nonce_row, server_is_right, server_row, ticket_row};
ghost use Rattle.s4u_client.specs.Requests.{asked_in};

use crate::cred::{Pending, Want};
use crate::fault::{Field, FinishFault};
use crate::names::asked_in;
use crate::texts::{name_text, number_text};
use krb_messages::{EncKdcRep, KdcRep};
use krb_names::{NameRefusal, Principal, Realm, Text, parse_name};
use std::alloc::{AllocError, Global};

/// NT-ENTERPRISE (RFC 4120, section 6.2).
const NT_ENTERPRISE: i32 = 10;

/// Whether the parts are those of a krbtgt, of any realm.
fn names_krbtgt(parts: &[Text]) -> bool
    ensures { result ≡ names_krbtgt parts.now }
{
    match parts {
        [first, _] => first.as_str() == "krbtgt",
        _ => false,
    }
}

/// Whether a name is that of a ticket-granting ticket of the asked realm.
fn is_krbtgt_in(realm: &Realm, name: &Principal) -> bool
    ensures { result ≡ is_krbtgt_in realm.now name.now }
{
    names_krbtgt(name.parts.as_slice()) && name.realm == *realm
}

/// Whether a name is the one that an enterprise name says.
fn is_enterprise_of(alloc: Global, parts: &[Text], name: &Principal) -> Result<bool, AllocError>
    ensures { IfOk result (λ found. found ≡ is_enterprise_of parts.now name.now) }
{
    let [part] = parts else {
        return Ok(false);
    };
    match parse_name(alloc, part.as_str()) {
        Ok(joined) => Ok(name.is_same(&joined)),
        Err(NameRefusal::NoMemory) => Err(AllocError),
        Err(_) => Ok(false),
    }
}

/// Whether a name is that of an asked enterprise name, in the asked realm.
fn is_asked_enterprise(alloc: Global, want: &Want, name: &Principal) -> Result<bool, AllocError>
    ensures { IfOk result (λ found. found ≡ is_asked_enterprise want.now name.now) }
{
    if want.server.kind != NT_ENTERPRISE || name.realm != want.realm {
        return Ok(false);
    }
    is_enterprise_of(alloc, want.server.parts.as_slice(), name)
}

/// Whether a name is the asked one, in the asked realm.
fn is_asked(want: &Want, name: &Principal) -> bool
    ensures { result ≡ same_principal name.now (asked_in want.now.realm want.now.server) }
{
    name.parts.as_slice() == want.server.parts.as_slice() && name.realm == want.realm
}

/// Whether the server is the one that was asked for, or a krbtgt of the asked realm.
fn server_is_right(alloc: Global, want: &Want, name: &Principal) -> Result<bool, AllocError>
    ensures { IfOk result (λ right. right ≡ server_is_right want.now name.now) }
{
    if is_asked(want, name) || is_krbtgt_in(&want.realm, name) {
        return Ok(true);
    }
    is_asked_enterprise(alloc, want, name)
}

/// Whether the client is the expected one, or, with a krbtgt, the one that asks.
fn client_is_right(pending: &Pending, server: &Principal, name: &Principal) -> bool
    ensures { result ≡ client_is_right pending.now server.now name.now }
{
    name.is_same(&pending.client)
        || is_krbtgt_in(&pending.want.realm, server) && name.is_same(&pending.own)
}

fn compare_nonce(alloc: Global, pending: &Pending, part: &EncKdcRep) -> Result<(), FinishFault>
    ensures { Compares result (nonce_row pending.now part.now) }
{
    if part.nonce == pending.want.nonce {
        return Ok(());
    }
    Err(FinishFault::Differs(
        Field::Nonce,
        number_text(alloc, pending.want.nonce)?,
        number_text(alloc, part.nonce)?,
    ))
}

fn compare_client(
    alloc: Global,
    pending: &Pending,
    reply: &KdcRep,
    part: &EncKdcRep,
) -> Result<(), FinishFault>
    ensures { Compares result (client_row pending.now reply.now part.now) }
{
    if client_is_right(pending, &part.sname, &reply.cname) {
        return Ok(());
    }
    Err(FinishFault::Differs(
        Field::Client,
        name_text(alloc, &pending.client)?,
        name_text(alloc, &reply.cname)?,
    ))
}

/// The asked server against the one that is sealed.
fn compare_server(alloc: Global, want: &Want, part: &EncKdcRep) -> Result<(), FinishFault>
    ensures { Compares result (server_row want.now part.now) }
{
    if server_is_right(alloc, want, &part.sname)? {
        return Ok(());
    }
    let asked = asked_in(alloc, &want.realm, &want.server)?;
    Err(FinishFault::Differs(
        Field::Server,
        name_text(alloc, &asked)?,
        name_text(alloc, &part.sname)?,
    ))
}

/// The ticket's server against the one that is sealed.
fn compare_ticket(alloc: Global, reply: &KdcRep, part: &EncKdcRep) -> Result<(), FinishFault>
    ensures { Compares result (ticket_row reply.now part.now) }
{
    if reply.ticket.sname.is_same(&part.sname) {
        return Ok(());
    }
    Err(FinishFault::Differs(
        Field::Server,
        name_text(alloc, &part.sname)?,
        name_text(alloc, &reply.ticket.sname)?,
    ))
}

fn compare_etype(alloc: Global, pending: &Pending, reply: &KdcRep) -> Result<(), FinishFault>
    ensures { Compares result (etype_row pending.now reply.now) }
{
    let sent = pending.key.etype.number();
    let came = reply.enc_part.etype;
    if came == sent {
        return Ok(());
    }
    Err(FinishFault::Differs(
        Field::Etype,
        number_text(alloc, i64::from(sent))?,
        number_text(alloc, i64::from(came))?,
    ))
}

/// What was sent against what came: the first thing that differs.
pub(crate) fn compare(
    alloc: Global,
    pending: &Pending,
    reply: &KdcRep,
    part: &EncKdcRep,
) -> Result<(), FinishFault>
    ensures first { MatchResult result (λ done. first_failing (comparisons pending.now reply.now part.now) ≡ None) (λ fault. fault ≢ FinishFault.NoMemory → first_failing (comparisons pending.now reply.now part.now) ≡ Some fault) }
{
    compare_nonce(alloc, pending, part)?;
    compare_client(alloc, pending, reply, part)?;
    compare_server(alloc, &pending.want, part)?;
    compare_ticket(alloc, reply, part)?;
    compare_etype(alloc, pending, reply)
}
