//! What the rules decide of a request.
use crate::rule::Rule;
use krb_names::{Etype, KTime};

/// What the server's name of a request aims at.
#[derive(Clone, Copy, Debug, PartialEq, Eq)]
pub enum Aim {
    /// This realm's own ticket-granting service.
    Krbtgt,
    /// The trust of this realm at this index, which leads to the realm that is named, or to that of the account.
    Hop(u32),
    /// The account of this realm at this index.
    Account(u32),
}

/// What the ticket of a granted request has.
#[derive(Clone, Copy, Debug, PartialEq, Eq)]
pub struct Terms {
    pub aim: Aim,
    /// TicketFlags, bit 0 the highest.
    pub flags: u32,
    pub start: KTime,
    pub end: KTime,
    /// The type of the session key.
    pub session: Etype,
    /// Whether the realm that issued the presented ticket is appended to the transited realms.
    pub append: bool,
}

/// The verdict on a request.
#[derive(Clone, Copy, Debug, PartialEq, Eq)]
pub enum Decision {
    /// A ticket with these terms.
    Grant(Terms),
    /// The first rule that fails.
    Deny(Rule),
}
