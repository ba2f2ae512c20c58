//! What a client holds and asks for.
use crate::names::copy_ticket;
use krb_names::{Bytes, KTime, Key, Principal, Realm, TryClone};
use krb_tickets::Ticket;
use std::alloc::{AllocError, Global};

/// A ticket, and what its client was told of it (RFC 4120, section 5.4.2).
#[derive(Debug, Drop)]
pub struct Cred {
    pub client: Principal,
    /// The service, as it is named in what was sealed for the client.
    pub server: Principal,
    pub ticket: Ticket,
    /// The session key.
    pub session: Key,
    /// TicketFlags, bit 0 the highest.
    pub flags: u32,
    pub end: KTime,
}

impl TryClone for Cred {
    fn try_clone(&self, alloc: Global) -> Result<Cred, AllocError> {
        Ok(Cred {
            client: self.client.try_clone(alloc)?,
            server: self.server.try_clone(alloc)?,
            ticket: copy_ticket(alloc, &self.ticket)?,
            session: self.session,
            flags: self.flags,
            end: self.end,
        })
    }
}

impl TryClone for Want {
    fn try_clone(&self, alloc: Global) -> Result<Want, AllocError> {
        Ok(Want {
            server: self.server.try_clone(alloc)?,
            realm: self.realm.try_clone(alloc)?,
            forwardable: self.forwardable,
            till: self.till,
            nonce: self.nonce,
        })
    }
}

/// What a ticket is asked for.
#[derive(Debug, Drop)]
pub struct Want {
    /// The name that is asked for; the realm beside it does not count.
    pub server: Principal,
    /// The realm that is asked.
    pub realm: Realm,
    pub forwardable: bool,
    pub till: KTime,
    /// From -2^31 to 2^32 - 1.
    pub nonce: i64,
}

/// What a client keeps of a request until the reply is there.
#[derive(Debug, Drop)]
pub struct Pending {
    pub want: Want,
    /// The client that a ticket is expected for.
    pub client: Principal,
    /// The client that asks; a ticket-granting ticket may be for it.
    pub own: Principal,
    /// The key that opens the part of the reply.
    pub key: Key,
    /// The usage of that key: 3 of an AS-REP, 9 of a TGS-REP (RFC 4120, section 7.5.1).
    pub usage: u32,
}

/// A request that was begun.
#[derive(Debug, Drop)]
pub struct Begun {
    /// An AS-REQ or a TGS-REQ (RFC 4120, section 5.4.1).
    pub bytes: Bytes,
    pub pending: Pending,
}
