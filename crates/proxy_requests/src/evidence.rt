//! An evidence that was read (MS-SFU, section 3.2.5.2).
ghost use Rattle.std.specs.Prelude.{◌≡◌};
ghost use Rattle.proxy_rules.specs.EvidenceViews.{evidence_seen};
ghost use Rattle.proxy_rules.specs.ProxyRules.{Shown};
ghost use Rattle.proxy_requests.specs.Evidences.{evidence_seen_of};

use kdc_records::{has_bit, ticket_flag};
use proxy_rules::EvidenceView;
use ticket_codec::{Certified, Opened};

/// The additional ticket of a request for S4U2proxy.
#[derive(Debug, Drop)]
pub struct Evidence {
    /// What was sealed in the ticket.
    pub opened: Opened,
    /// The ticket's record, whose signatures are right.
    pub certified: Certified,
}

/// An evidence that was read, as the rules see it.
pub fn evidence_view(evidence: &Evidence) -> EvidenceView<'_>
    ensures { evidence_seen result ≡ Shown (evidence_seen_of evidence.now) }
{
    EvidenceView::Shown {
        rec: &evidence.certified.rec,
        invalid: has_bit(evidence.opened.part.flags, ticket_flag::INVALID),
        agrees: evidence.certified.agrees,
    }
}
