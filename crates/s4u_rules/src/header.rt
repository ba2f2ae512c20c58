//! A TGS-REQ as the rules see it (RFC 4120, section 3.3.3; MS-SFU, section 3.2.5.1).
use kdc_records::{Rule, TicketRec};
use krb_names::{KTime, Moment};
use std::marker::Model;

/// The header of a request, its ticket-granting ticket.
#[derive(Clone, Copy, Debug)]
pub enum HeaderView<'a> {
    /// The first of the rules G1 to G8 that fails.
    Wrong(Rule),
    /// What was opened.
    Shown {
        /// When the authenticator was made.
        stamp: Moment,
        /// When the ticket starts.
        start: KTime,
        end: KTime,
        invalid: bool,
        /// The record. None where its PAC does not read, a signature is wrong, or the client information does not agree.
        rec: Option<&'a TicketRec>,
    },
}

/// The padata of S4U2self.
#[derive(Clone, Copy, Debug, PartialEq, Eq)]
pub enum SelfView {
    /// The first of the rules S1 to S3 that fails.
    Wrong(Rule),
    /// They name one user, and their checksums are right.
    Shown,
}

/// A header that was opened.
#[derive(Drop)]
pub(crate) struct ShownView<'a> {
    pub(crate) stamp: Moment,
    pub(crate) start: KTime,
    pub(crate) end: KTime,
    pub(crate) invalid: bool,
    pub(crate) rec: Option<&'a TicketRec>,
}

impl<'a> Model for ShownView<'a> {
    ghost use Rattle.s4u_rules.specs.Headers.{ShownHeader};
    ghost use Rattle.s4u_rules.specs.HeaderViews.{shown_seen};

    ghost Value = { ShownHeader };

    ghost view = { shown_seen };
}
