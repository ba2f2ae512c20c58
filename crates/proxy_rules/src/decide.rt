//! The verdict on a request for S4U2proxy.
ghost use Rattle.std.specs.Prelude.{◌≡◌, ◌<◌, length};
ghost use Rattle.kdc_prelude.specs.Verdicts.{first_failing};
ghost use Rattle.s4u_rules.specs.Outcomes.{IsVerdict};
ghost use Rattle.proxy_rules.specs.EvidenceViews.{evidence_seen};
ghost use Rattle.proxy_rules.specs.ProxyRules.{delegation_rules, evidence_rules, proxy_decision, proxy_rules};

use crate::delegation_rules::{chain_is_short, delegation_is_allowed, proxy_end};
use crate::evidence::{EvidenceView, ShownView};
use crate::evidence_rules::*;
use crate::grant::proxy_terms;
use dir_core::Directory;
use kdc_records::{Aim, Decision, Rule, TicketRec, Wish, end_is_later, require};
use krb_names::Moment;

/// The first of P6 to P10 that fails.
fn judge_evidence(
    dir: &Directory,
    realm: u32,
    now: Moment,
    wish: &Wish,
    header: &TicketRec,
    evidence: &ShownView,
) -> Result<(), Rule>
    requires { realm < length dir.now.realms }
    ensures first { IsVerdict result (first_failing (evidence_rules dir.now realm now wish.now header.now evidence.now)) }
{
    require(Rule::P6, evidence_agrees(wish, header, evidence))?;
    require(Rule::P7, evidence_lasts(now, evidence))?;
    require(Rule::P8, evidence_is_reached(dir, realm, evidence.rec))?;
    require(Rule::P9, evidence_may_be_used(wish, evidence.rec))?;
    require(Rule::P10, user_is_delegable(evidence.rec))
}

/// The first of P11, P12 and T1 that fails.
fn judge_delegation(
    dir: &Directory,
    realm: u32,
    now: Moment,
    wish: &Wish,
    header: &TicketRec,
    aim: Aim,
    evidence: &ShownView,
) -> Result<(), Rule>
    requires { realm < length dir.now.realms }
    ensures first { IsVerdict result (first_failing (delegation_rules dir.now realm now wish.now header.now evidence.now.rec aim)) }
{
    let end = proxy_end(dir, realm, now, wish, header, evidence.rec);
    require(
        Rule::P11,
        delegation_is_allowed(dir, realm, wish, header, evidence.rec, aim),
    )?;
    require(Rule::P12, chain_is_short(dir, realm, header, evidence.rec))?;
    require(Rule::T1, end_is_later(now, end))
}

/// The first of P6 to P12 and T1 that fails.
fn judge(
    dir: &Directory,
    realm: u32,
    now: Moment,
    wish: &Wish,
    header: &TicketRec,
    aim: Aim,
    evidence: &ShownView,
) -> Result<(), Rule>
    requires { realm < length dir.now.realms }
    ensures first { IsVerdict result (first_failing (proxy_rules dir.now realm now wish.now header.now aim evidence.now)) }
{
    judge_evidence(dir, realm, now, wish, header, evidence)?;
    judge_delegation(dir, realm, now, wish, header, aim, evidence)
}

/// The verdict on a request for S4U2proxy to the realm at an index, whose header keeps its rules: the first of the rules
/// P1 to P12 and T1 that fails, or what the ticket has. Takes no memory. `wish` is of that realm, `header` the record of
/// its ticket-granting ticket, `aim` what the name of its server gives there, and `evidence` what was read of its
/// additional ticket.
pub fn decide_proxy(
    dir: &Directory,
    realm: u32,
    now: Moment,
    wish: &Wish,
    header: &TicketRec,
    aim: Aim,
    evidence: &EvidenceView,
) -> Decision
    requires { realm < length dir.now.realms }
    ensures first { result ≡ proxy_decision dir.now realm now wish.now header.now aim (evidence_seen evidence.now) }
{
    let shown = match *evidence {
        EvidenceView::Wrong(rule) => return Decision::Deny(rule),
        EvidenceView::Shown {
            rec,
            invalid,
            agrees,
        } => ShownView {
            rec,
            invalid,
            agrees,
        },
    };
    match judge(dir, realm, now, wish, header, aim, &shown) {
        Err(rule) => Decision::Deny(rule),
        Ok(()) => Decision::Grant(proxy_terms(dir, realm, now, wish, header, shown.rec, aim)),
    }
}
