//! The rules of an evidence, each by its name (MS-SFU, section 3.2.5.2).
ghost use Rattle.std.specs.Prelude.{◌≡◌, ◌<◌, length};
ghost use Rattle.std.specs.Option.{option_copied};
ghost use Rattle.proxy_rules.specs.ProxyRules.{cross_evidence_agrees, evidence_agrees, evidence_is_reached, evidence_lasts, evidence_may_be_used, is_delegated_to, is_forwardable, last_of, user_is_delegable, user_is_unmarked};

use crate::evidence::ShownView;
use dir_core::Directory;
use kdc_records::{Delegation, TicketRec, Wish, has_bit, ticket_flag};
use krb_names::{Moment, Principal, Text};
use route_rules::cross_ok;
use s4u_rules::{is_joined, is_name_text, issuing_realm};

/// How long after now an evidence may start, in seconds.
const LATEST_START: u64 = 300;

/// USER_NOT_DELEGATED of UserAccountControl, 0x4000 (MS-PAC, section 2.5): its number, where bit 0 is the highest of 32.
const USER_NOT_DELEGATED: u32 = 17;

/// The last of some texts.
fn last_of(texts: &[Text]) -> Option<&Text>
    ensures { option_copied result ≡ last_of texts.now }
{
    texts.last()
}

/// Whether the last service that delegated is this client, and the target is the name that is asked for.
fn is_delegated_to(client: &Principal, wish: &Wish, delegation: &Delegation) -> bool
    ensures { result ≡ is_delegated_to client.now wish.now delegation.now }
{
    let (Some(last), Some(server)) = (last_of(delegation.services.as_slice()), &wish.server) else {
        return false;
    };
    is_name_text(client, last.as_str())
        && is_joined(delegation.target.as_str(), server.parts.as_slice())
}

/// Whether a cross-realm evidence ticket is the requestor's, as its last delegation says, for the name that is asked for.
fn cross_evidence_agrees(wish: &Wish, header: &TicketRec, evidence: &TicketRec) -> bool
    ensures { result ≡ cross_evidence_agrees wish.now header.now evidence.now }
{
    let Some(delegation) = &evidence.delegation else {
        return false;
    };
    evidence.client.is_same(&header.client) && is_delegated_to(&header.client, wish, delegation)
}

/// P6: the client information of the evidence agrees, and a cross-realm evidence ticket is the requestor's for the name
/// that is asked for.
pub(crate) fn evidence_agrees(wish: &Wish, header: &TicketRec, evidence: &ShownView) -> bool
    ensures { result ≡ evidence_agrees wish.now header.now evidence.now }
{
    let agrees = match issuing_realm(&evidence.rec.holder) {
        None => true,
        Some(_) => cross_evidence_agrees(wish, header, evidence.rec),
    };
    evidence.agrees && agrees
}

/// P7: the evidence starts at most 300 seconds after now, is not invalid, and now is earlier than its end.
pub(crate) fn evidence_lasts(now: Moment, evidence: &ShownView) -> bool
    ensures { result ≡ evidence_lasts now evidence.now }
{
    evidence.rec.start.secs() <= now.secs + LATEST_START
        && !evidence.invalid
        && now.secs < evidence.rec.end.secs()
}

/// P8: a cross-realm evidence ticket tells of a user and of realms that the trust with the issuing realm reaches.
pub(crate) fn evidence_is_reached(dir: &Directory, realm: u32, evidence: &TicketRec) -> bool
    requires { realm < length dir.now.realms }
    ensures { result ≡ evidence_is_reached dir.now realm evidence.now }
{
    match issuing_realm(&evidence.holder) {
        None => true,
        Some(issuer) => match dir.realm_by_name(issuer.as_str()) {
            Some(from) => cross_ok(dir, realm, from, evidence).is_ok(),
            None => false,
        },
    }
}

/// Whether the evidence is forwardable.
pub(crate) fn is_forwardable(evidence: &TicketRec) -> bool
    ensures { result ≡ is_forwardable evidence.now }
{
    has_bit(evidence.flags, ticket_flag::FORWARDABLE)
}

/// Whether the user is not marked.
pub(crate) fn user_is_unmarked(evidence: &TicketRec) -> bool
    ensures { result ≡ user_is_unmarked evidence.now }
{
    !has_bit(evidence.subject.control, USER_NOT_DELEGATED)
}

/// P9: the evidence is forwardable, or resource-based delegation is asked for.
pub(crate) fn evidence_may_be_used(wish: &Wish, evidence: &TicketRec) -> bool
    ensures { result ≡ evidence_may_be_used wish.now evidence.now }
{
    is_forwardable(evidence) || wish.rbcd
}

/// P10: the evidence is forwardable, or its user is not marked.
pub(crate) fn user_is_delegable(evidence: &TicketRec) -> bool
    ensures { result ≡ user_is_delegable evidence.now }
{
    is_forwardable(evidence) || user_is_unmarked(evidence)
}
