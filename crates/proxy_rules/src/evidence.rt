//! The evidence of a request for S4U2proxy, its additional ticket, as the rules see it.
use kdc_records::{Rule, TicketRec};
use std::marker::Model;

/// The evidence of a request.
#[derive(Clone, Copy, Debug)]
pub enum EvidenceView<'a> {
    /// The first of the rules P1 to P5 that fails.
    Wrong(Rule),
    /// What was opened, with the right signatures.
    Shown {
        rec: &'a TicketRec,
        invalid: bool,
        /// Whether its client information agrees.
        agrees: bool,
    },
}

/// An evidence that was opened.
#[derive(Drop)]
pub(crate) struct ShownView<'a> {
    pub(crate) rec: &'a TicketRec,
    pub(crate) invalid: bool,
    pub(crate) agrees: bool,
}

impl<'a> Model for ShownView<'a> {
    ghost use Rattle.proxy_rules.specs.ProxyRules.{ShownEvidence};
    ghost use Rattle.proxy_rules.specs.EvidenceViews.{shown_seen};

    ghost Value = { ShownEvidence };

    ghost view = { shown_seen };
}
