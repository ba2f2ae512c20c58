//! Reading the evidence of a request for S4U2proxy (MS-SFU, section 3.2.5.2).
ghost use Rattle.std.specs.Prelude.{◌≡◌, ◌<◌, ◌^◌, IfErr, IfOk, None, Some, length};
ghost use Rattle.std.specs.List.{AllByRecursion};
ghost use Rattle.kdc_prelude.specs.Answers.{Answers};
ghost use Rattle.kdc_prelude.specs.Verdicts.{first_failing};
ghost use Rattle.ticket_codec.specs.Denied.{denied};
ghost use Rattle.tgs_requests.specs.HeaderSteps.{IsDenial};
ghost use Rattle.proxy_requests.specs.Evidences.{evidence_in, evidence_reading_rules, IsEvidence, tickets_of};
ghost use Rattle.proxy_requests.specs.EvidenceSteps.{evidence_read, evidence_shown};

use crate::evidence::Evidence;
use crate::requestor::{requestor_role, ticket_asked};
use dir_core::Directory;
use kdc_records::{Rule, TicketRec};
use krb_messages::KdcReq;
use krb_tickets::Ticket;
use std::alloc::Global;
use ticket_codec::{Role, ShowFault, present, unseal};

/// What a ticket shows in a role.
fn read_shown(
    alloc: Global,
    dir: &Directory,
    realm: u32,
    role: Role,
    ticket: &Ticket,
) -> Result<Evidence, ShowFault>
    requires realm { realm < length dir.now.realms }
    requires few { length ticket.now.sealed.cipher < 2 ^ 32 }
    ensures exact { Answers ShowFault.NoMemory result (denied (evidence_shown dir.now realm role ticket.now)) }
    ensures known { IfOk result (λ evidence. IsEvidence evidence) }
{
    let opened = unseal(alloc, dir, realm, role, ticket)?;
    let certified = present(alloc, dir, realm, role, &opened)?;
    Ok(Evidence { opened, certified })
}

/// The evidence, step by step.
#[tactic(auto, unfolding(crate::specs::EvidenceSteps::evidence_read))]
fn read_steps(
    alloc: Global,
    dir: &Directory,
    realm: u32,
    message: &KdcReq,
    header: &TicketRec,
) -> Result<Evidence, ShowFault>
    requires realm { realm < length dir.now.realms }
    requires short { AllByRecursion (λ ticket. length ticket.sealed.cipher < 2 ^ 32) (tickets_of message.now.req_body.additional_tickets) }
    ensures exact { Answers ShowFault.NoMemory result (denied (evidence_read dir.now realm message.now header.now)) }
    ensures known { IfOk result (λ evidence. IsEvidence evidence) }
{
    let Some(ticket) = ticket_asked(message) else {
        return Err(ShowFault::Deny(Rule::P1));
    };
    let Some(role) = requestor_role(dir, realm, header) else {
        return Err(ShowFault::Deny(Rule::P2));
    };
    read_shown(alloc, dir, realm, role, ticket)
}

/// The evidence of a request for S4U2proxy to the realm at an index: its additional ticket, and the ticket's record.
/// `header` is the record of the request's ticket-granting ticket.
///
/// # Errors
/// `Deny` with the first of the rules `P1` to `P5` that fails; `NoMemory`.
pub fn read_evidence(
    alloc: Global,
    dir: &Directory,
    realm: u32,
    message: &KdcReq,
    header: &TicketRec,
) -> Result<Evidence, ShowFault>
    requires realm { realm < length dir.now.realms }
    requires short { AllByRecursion (λ ticket. length ticket.sealed.cipher < 2 ^ 32) (tickets_of message.now.req_body.additional_tickets) }
    ensures ok { IfOk result (λ evidence. first_failing (evidence_reading_rules dir.now realm message.now header.now) ≡ None) }
    ensures found { IfOk result (λ evidence. evidence_in dir.now realm message.now header.now ≡ Some evidence) }
    ensures err { IfErr result (IsDenial (first_failing (evidence_reading_rules dir.now realm message.now header.now))) }
    ensures known { IfOk result IsEvidence }
{
    read_steps(alloc, dir, realm, message, header)
}
