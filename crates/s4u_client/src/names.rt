//! Names and tickets as a request has them.
ghost use Rattle.std.specs.Prelude.{◌≡◌, IfOk};
ghost use Rattle.std.specs.Option.{option_copied};
ghost use Rattle.s4u_client.specs.Requests.{asked_in, tickets_of};

use krb_messages::Tickets;
use krb_names::{Items, Principal, Realm, TryClone};
use krb_tickets::{EncryptedData, Ticket};
use std::alloc::{AllocError, Global};

/// A name in the realm that is asked.
pub(crate) fn asked_in(
    alloc: Global,
    realm: &Realm,
    name: &Principal,
) -> Result<Principal, AllocError>
    ensures { IfOk result (λ made. made ≡ asked_in realm.now name.now) }
{
    Ok(Principal {
        kind: name.kind,
        parts: name.parts.try_clone(alloc)?,
        realm: realm.try_clone(alloc)?,
    })
}

/// A copy of a ticket.
pub(crate) fn copy_ticket(alloc: Global, ticket: &Ticket) -> Result<Ticket, AllocError>
    ensures { IfOk result (λ copied. copied ≡ ticket.now) }
{
    Ok(Ticket {
        realm: ticket.realm.try_clone(alloc)?,
        sname: ticket.sname.try_clone(alloc)?,
        sealed: EncryptedData {
            etype: ticket.sealed.etype,
            kvno: ticket.sealed.kvno,
            cipher: ticket.sealed.cipher.try_clone(alloc)?,
        },
    })
}

/// The additional tickets of a request: the evidence, where there is one.
pub(crate) fn tickets_of(
    alloc: Global,
    evidence: Option<&Ticket>,
) -> Result<Option<Tickets>, AllocError>
    ensures { IfOk result (λ tickets. tickets ≡ tickets_of (option_copied evidence.entry)) }
{
    let Some(evidence) = evidence else {
        return Ok(None);
    };
    let mut tickets = Items::new(alloc);
    tickets.push(copy_ticket(alloc, evidence)?)?;
    Ok(Some(tickets))
}
