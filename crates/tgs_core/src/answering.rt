//! The answer to a request.
ghost use Rattle.std.specs.Prelude.{◌≡◌, ◌<◌, ◌^◌, ℕ, List, IfOk, IfSome, None, Some, length};
ghost use Rattle.std.specs.Option.{option_copied};
ghost use Rattle.kdc_prelude.specs.Verdicts.{first_failing};
ghost use Rattle.kdc_records.specs.declared.wish.Branch.TheVariants.{Initial};
ghost use Rattle.dir_core.specs.Lookups.{realm_named};
ghost use Rattle.tgs_requests.specs.Askings.{branch_of, tgs_branch};
ghost use Rattle.tgs_core.specs.Answers.{answered_long, answered_to, noted_branch};
ghost use Rattle.tgs_core.specs.Received.{IsReceived};
ghost use Rattle.tgs_core.specs.Requests.{message_in, opening_rules};
ghost use Rattle.tgs_core.specs.Verdicts.{verdict};

use crate::answered::{Answered, Note};
use crate::error::error_bytes;
use crate::initial::reply_as;
use crate::request::{open_request, read_request};
use crate::tgs::reply_tgs;
use as_core::judge_as;
use dir_core::Directory;
use kdc_records::{Branch, Decision, Rule};
use krb_messages::KdcReq;
use krb_names::{Bytes, Moment};
use std::alloc::{AllocError, Global};
use tgs_requests::{branch_of, tgs_branch};
use ticket_codec::ShowFault;

/// How a request asks that a rule denies, where that is known: not where one of U1 to U4 denies it.
fn noted_branch(rule: Rule, message: Option<&KdcReq>) -> Option<Branch>
    ensures { result ≡ noted_branch (Some rule) (option_copied message.entry) }
{
    match rule {
        Rule::U1 | Rule::U2 | Rule::U3 | Rule::U4 => None,
        _ => match message {
            Some(message) => Some(branch_of(message)),
            None => None,
        },
    }
}

/// The answer to a request that a rule denies.
fn deny(
    alloc: Global,
    dir: &Directory,
    now: Moment,
    random: &[u8; 64],
    request: &[u8],
    message: Option<&KdcReq>,
    rule: Rule,
) -> Result<Answered, AllocError>
    requires read { option_copied message ≡ message_in request.now }
    requires received { IfSome (option_copied message) IsReceived }
    requires rule { verdict dir.now now request.now ≡ Some rule }
    ensures exact { IfOk result (λ answered. answered ≡ answered_to dir.now now random.now request.now) }
    ensures short { IfOk result (λ answered. length answered.reply < 2 ^ 31) }
{
    Ok(Answered {
        reply: error_bytes(alloc, dir, now, message, rule)?,
        note: Note {
            branch: noted_branch(rule, message),
            rule: Some(rule),
        },
    })
}

/// A granted reply, and its note.
fn granted(reply: Bytes, branch: Branch) -> Answered
    ensures { result ≡ record { reply = reply; note = record { branch = Some branch; rule = None } } }
{
    Answered {
        reply,
        note: Note {
            branch: Some(branch),
            rule: None,
        },
    }
}

/// The answer to an AS-REQ to the realm at an index, which no rule of a request by itself denies.
fn answer_as(
    alloc: Global,
    dir: &Directory,
    now: Moment,
    random: &[u8; 64],
    request: &[u8],
    realm: u32,
    message: &KdcReq,
) -> Result<Answered, AllocError>
    requires read { message_in request.now ≡ Some message.now }
    requires received { IsReceived message.now }
    requires opened { first_failing (opening_rules dir.now request.now) ≡ None }
    requires asked { branch_of message.now ≡ Initial }
    requires realm { realm < length dir.now.realms }
    requires found { realm_named dir.now message.now.req_body.realm ≡ Some realm }
    ensures exact { IfOk result (λ answered. answered ≡ answered_to dir.now now random.now request.now) }
    ensures short { IfOk result (λ answered. length answered.reply < 2 ^ 31) }
{
    match judge_as(alloc, dir, realm, now, message)? {
        Decision::Deny(rule) => deny(alloc, dir, now, random, request, Some(message), rule),
        Decision::Grant(terms) => {
            let reply = reply_as(alloc, dir, now, random, realm, message, terms)?;
            Ok(granted(reply, Branch::Initial))
        }
    }
}

/// The answer to a TGS-REQ to the realm at an index, which no rule of a request by itself denies.
fn answer_tgs(
    alloc: Global,
    dir: &Directory,
    now: Moment,
    random: &[u8; 64],
    request: &[u8],
    realm: u32,
    message: &KdcReq,
) -> Result<Answered, AllocError>
    requires read { message_in request.now ≡ Some message.now }
    requires received { IsReceived message.now }
    requires opened { first_failing (opening_rules dir.now request.now) ≡ None }
    requires kind { branch_of message.now ≡ tgs_branch message.now }
    requires realm { realm < length dir.now.realms }
    requires found { realm_named dir.now message.now.req_body.realm ≡ Some realm }
    ensures exact { IfOk result (λ answered. answered ≡ answered_to dir.now now random.now request.now) }
    ensures short { IfOk result (λ answered. length answered.reply < 2 ^ 31) }
{
    match reply_tgs(alloc, dir, now, random, realm, message) {
        Ok(reply) => Ok(granted(reply, tgs_branch(message))),
        Err(ShowFault::Deny(rule)) => deny(alloc, dir, now, random, request, Some(message), rule),
        Err(ShowFault::NoMemory) => Err(AllocError),
    }
}

/// The answer to a request to the realm at an index, which no rule of a request by itself denies.
fn answer_opened(
    alloc: Global,
    dir: &Directory,
    now: Moment,
    random: &[u8; 64],
    request: &[u8],
    realm: u32,
    message: &KdcReq,
) -> Result<Answered, AllocError>
    requires read { message_in request.now ≡ Some message.now }
    requires received { IsReceived message.now }
    requires opened { first_failing (opening_rules dir.now request.now) ≡ None }
    requires realm { realm < length dir.now.realms }
    requires found { realm_named dir.now message.now.req_body.realm ≡ Some realm }
    ensures exact { IfOk result (λ answered. answered ≡ answered_to dir.now now random.now request.now) }
    ensures short { IfOk result (λ answered. length answered.reply < 2 ^ 31) }
{
    match branch_of(message) {
        Branch::Initial => answer_as(alloc, dir, now, random, request, realm, message),
        _ => answer_tgs(alloc, dir, now, random, request, realm, message),
    }
}

/// The answer to a request: a ticket exactly where no rule denies it, or the first failing rule's error. `random` is for
/// this request alone: a session key and two confounders are of it.
pub fn answer(
    alloc: Global,
    dir: &Directory,
    now: Moment,
    random: &[u8; 64],
    request: &[u8],
) -> Result<Answered, AllocError>
    ensures exact { IfOk result (λ answered. answered ≡ answered_to dir.now now random.now request.now) }
    ensures short { IfOk result (λ answered. length answered.reply < 2 ^ 31) }
{
    let message = read_request(alloc, request)?;
    match open_request(dir, request, message.as_ref()) {
        Err(rule) => deny(alloc, dir, now, random, request, message.as_ref(), rule),
        Ok(realm) => match &message {
            Some(message) => answer_opened(alloc, dir, now, random, request, realm, message),
            None => unreachable!(),
        },
    }
}

/// The answer to a request that is too long to be taken in: that of `U1`.
#[tactic(auto, unfolding(crate::specs::Answers::answered_long), using(crate::proofs::Openings::answered_too_long))]
pub fn answer_long(alloc: Global, dir: &Directory, now: Moment) -> Result<Answered, AllocError>
    ensures exact { IfOk result (λ answered. answered ≡ answered_long dir.now now) }
    ensures short { IfOk result (λ answered. length answered.reply < 2 ^ 31) }
    // Any request above the limit is answered so.
    ensures same { (block bytes : List ℕ) → 131072 < length bytes → answered_to dir.now now block bytes ≡ answered_long dir.now now }
{
    Ok(Answered {
        reply: error_bytes(alloc, dir, now, None, Rule::U1)?,
        note: Note {
            branch: None,
            rule: Some(Rule::U1),
        },
    })
}
