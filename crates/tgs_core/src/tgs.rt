//! The reply to a TGS-REQ (RFC 4120, section 3.3.3; MS-SFU, section 3.2.5).
ghost use Rattle.std.specs.Prelude.{◌≡◌, ◌<◌, ◌^◌, IfErr, IfOk, MatchResult, None, Some, false, length, option_map, true};
ghost use Rattle.std.specs.Option.{option_copied};
ghost use Rattle.kdc_prelude.specs.Verdicts.{first_failing};
ghost use Rattle.kdc_records.specs.declared.wish.Branch.TheVariants.{Proxy};
ghost use Rattle.dir_core.specs.Lookups.{realm_named};
ghost use Rattle.s4u_rules.specs.SelfRules.{user_is_local};
ghost use Rattle.s4u_rules.specs.TgsRules.{aim_of, header_rules};
ghost use Rattle.tgs_requests.specs.Askings.{asks_self, branch_of, self_asked, tgs_branch, wish_of};
ghost use Rattle.tgs_requests.specs.Headers.{IsHeader, record_in, shown_header};
ghost use Rattle.tgs_requests.specs.HeaderSteps.{IsDenial};
ghost use Rattle.tgs_core.specs.GrantViews.{grounds_seen, presented_seen, ticket_seen};
ghost use Rattle.tgs_core.specs.Grants.{ByEvidence, grant_of, grounds_for, grounds_of, grounds_on, presented_with, terms_of, ticket_shown_by, x509_in};
ghost use Rattle.tgs_core.specs.Judged.{IsGranted, IsKept, IsTgsRead, branch_decision, is_proxy};
ghost use Rattle.tgs_core.specs.Received.{IsReceived};
ghost use Rattle.tgs_core.specs.Replies.{reply_bytes};
ghost use Rattle.tgs_core.specs.Requests.{request_to};
ghost use Rattle.tgs_core.specs.Verdicts.{opened_rows, rules_of_branch, tgs_rules};

use crate::grant::find_grant;
use crate::grounds::{GroundsView, PresentedView, ShownTicketView};
use crate::reply::reply;
use crate::tgs_read::{TgsRead, read_tgs};
use dir_core::Directory;
use kdc_records::{Aim, Branch, Decision, Rule, Terms, TicketRec, Wish};
use krb_messages::KdcReq;
use krb_names::{Bytes, Moment, Principal};
use proxy_requests::{Evidence, evidence_view, read_evidence};
use proxy_rules::decide_proxy;
use s4u_padata::X509User;
use s4u_rules::{check_header, decide_self, decide_tgs, user_realm, user_record};
use std::alloc::{AllocError, Global};
use tgs_requests::{Header, SelfAsked, asks_self, check_user, header_view, tgs_branch};
use ticket_codec::ShowFault;

/// The header, where it shows a record.
fn presented(header: &Header) -> Option<PresentedView<'_>>
    ensures { option_map (λ shown. presented_seen shown) result ≡ option_map (presented_with header.now) (record_in header.now) }
{
    match &header.certified {
        Some(shown) if shown.agrees => Some(PresentedView {
            rec: &shown.rec,
            part: &header.opened.part,
            subkey: header.auth.subkey,
        }),
        _ => None,
    }
}

/// A header that keeps its rules, and what the request aims at.
#[derive(Drop)]
struct Kept<'a> {
    shown: PresentedView<'a>,
    aim: Aim,
}

/// The header of a request, where it keeps its rules, or the first of G9 to G22 that fails.
fn check_kept<'a>(
    dir: &Directory,
    realm: u32,
    now: Moment,
    wish: &Wish,
    header: &'a Header,
) -> Result<Kept<'a>, Rule>
    requires realm { realm < length dir.now.realms }
    requires read { IsHeader header.now }
    ensures first { MatchResult result (λ kept. (first_failing (header_rules dir.now realm now wish.now (shown_header header.now)) ≡ None) × (aim_of dir.now realm wish.now ≡ Some kept.aim)) (λ rule. first_failing (header_rules dir.now realm now wish.now (shown_header header.now)) ≡ Some rule) }
    ensures shown { IfOk result (λ kept. Some (presented_seen kept.shown) ≡ option_map (presented_with header.now) (record_in header.now)) }
{
    let shown = presented(header);
    let view = header_view(header);
    let aim = check_header(dir, realm, now, wish, &view)?;
    match shown {
        Some(shown) => Ok(Kept { shown, aim }),
        None => unreachable!(),
    }
}

/// The header of a TGS-REQ that was read, where it keeps its rules.
///
/// # Errors
/// The first of G9 to G22 that fails.
fn keep_header<'a>(
    dir: &Directory,
    realm: u32,
    now: Moment,
    message: &KdcReq,
    read: &'a TgsRead,
) -> Result<Kept<'a>, Rule>
    requires realm { realm < length dir.now.realms }
    requires read { IsTgsRead dir.now realm message.now read.now }
    ensures ok { IfOk result (λ kept. IsKept dir.now now message.now realm read.now.header (presented_seen kept.shown) kept.aim) }
    ensures err { IfErr result (λ rule. first_failing (opened_rows dir.now now (request_to message.now realm) (tgs_branch message.now) (Some read.now.header)) ≡ Some rule) }
{
    check_kept(dir, realm, now, &read.wish, &read.header)
}

/// The verdict behind the rules of the header, whose record this is, but for S4U2proxy.
fn decide(
    alloc: Global,
    dir: &Directory,
    realm: u32,
    now: Moment,
    message: &KdcReq,
    wish: &Wish,
    asked: Option<&SelfAsked>,
    header: &Header,
    rec: &TicketRec,
    aim: Aim,
) -> Result<Decision, AllocError>
    requires realm { realm < length dir.now.realms }
    requires wish { wish.now ≡ wish_of message.now }
    requires asked { asks_self message.now ≡ true → option_copied asked ≡ self_asked message.now }
    ensures { IfOk result (λ decision. decision ≡ branch_decision dir.now now (request_to message.now realm) header.now rec.now aim (tgs_branch message.now)) }
{
    if asks_self(message) {
        let user = check_user(alloc, header, message, asked)?;
        Ok(decide_self(dir, realm, now, wish, rec, aim, &user))
    } else {
        Ok(decide_tgs(dir, realm, now, wish, rec, aim))
    }
}

/// PA-S4U-X509-USER of the padata of S4U2self.
fn x509_of(asked: Option<&SelfAsked>) -> Option<&X509User>
    ensures { option_copied result ≡ x509_in (option_copied asked.entry) }
{
    match asked {
        Some(asked) => asked.x509_user.as_ref(),
        None => None,
    }
}

/// Whether the user is of the realm at an index.
fn user_is_local(dir: &Directory, realm: u32, user: &Principal) -> bool
    requires { realm < length dir.now.realms }
    ensures { result ≡ user_is_local dir.now realm user.now }
{
    user_realm(user) == dir.realm(realm).name.as_str()
}

/// The grounds of S4U2self on a header; None where no user is asked for, or one of this realm that has no account.
fn self_grounds<'a>(
    dir: &'a Directory,
    realm: u32,
    wish: &Wish,
    asked: Option<&'a X509User>,
    shown: PresentedView<'a>,
) -> Option<GroundsView<'a>>
    requires realm { realm < length dir.now.realms }
    ensures { option_map (λ grounds. grounds_seen grounds) result ≡ grounds_for dir.now realm (presented_seen shown.entry) (option_copied asked.entry) wish.now.user }
{
    let Some(user) = &wish.user else {
        return None;
    };
    if !user_is_local(dir, realm, user) {
        return Some(GroundsView::ForHeadersUser(shown, asked));
    }
    match user_record(dir, realm, user) {
        Some(account) => Some(GroundsView::ForUser(shown, account, asked)),
        None => None,
    }
}

/// The grounds on a header, but for S4U2proxy.
fn grounds_on<'a>(
    dir: &'a Directory,
    realm: u32,
    message: &KdcReq,
    wish: &Wish,
    asked: Option<&'a SelfAsked>,
    shown: PresentedView<'a>,
) -> Option<GroundsView<'a>>
    requires realm { realm < length dir.now.realms }
    requires wish { wish.now ≡ wish_of message.now }
    requires asked { asks_self message.now ≡ true → option_copied asked ≡ self_asked message.now }
    requires kind { is_proxy (tgs_branch message.now) ≡ false }
    ensures { option_map (λ grounds. grounds_seen grounds) result ≡ grounds_on dir.now (request_to message.now realm) (presented_seen shown.entry) (tgs_branch message.now) }
{
    if asks_self(message) {
        self_grounds(dir, realm, wish, x509_of(asked), shown)
    } else {
        Some(GroundsView::ByHeader(shown))
    }
}

/// What a TGS-REQ is granted: on what the grant stands, and what the ticket has.
#[derive(Drop)]
struct Granted<'a> {
    grounds: GroundsView<'a>,
    terms: Terms,
}

/// What a TGS-REQ is granted whose header keeps its rules, but for S4U2proxy.
///
/// # Errors
/// `Deny` with the first of the rules behind those of the header that fails; `NoMemory`.
fn judge<'a>(
    alloc: Global,
    dir: &'a Directory,
    realm: u32,
    now: Moment,
    message: &KdcReq,
    read: &'a TgsRead,
    kept: Kept<'a>,
) -> Result<Granted<'a>, ShowFault>
    requires realm { realm < length dir.now.realms }
    requires kind { is_proxy (tgs_branch message.now) ≡ false }
    requires read { IsTgsRead dir.now realm message.now read.now }
    requires kept { IsKept dir.now now message.now realm read.now.header (presented_seen kept.shown) kept.aim }
    ensures ok { IfOk result (λ granted. IsGranted dir.now now (request_to message.now realm) (tgs_branch message.now) read.now.header (grounds_seen granted.grounds) granted.terms) }
    ensures err { IfErr result (IsDenial (first_failing (opened_rows dir.now now (request_to message.now realm) (tgs_branch message.now) (Some read.now.header)))) }
{
    let asked = read.asked.as_ref();
    let decision = decide(
        alloc,
        dir,
        realm,
        now,
        message,
        &read.wish,
        asked,
        &read.header,
        kept.shown.rec,
        kept.aim,
    )?;
    let terms = match decision {
        Decision::Deny(rule) => return Err(ShowFault::Deny(rule)),
        Decision::Grant(terms) => terms,
    };
    match grounds_on(dir, realm, message, &read.wish, asked, kept.shown) {
        Some(grounds) => Ok(Granted { grounds, terms }),
        None => unreachable!(),
    }
}

/// The reply to a TGS-REQ to the realm at an index whose header keeps its rules, but for S4U2proxy.
///
/// # Errors
/// `Deny` with the first of the rules behind those of the header that fails; `NoMemory`.
fn reply_kept<'a>(
    alloc: Global,
    dir: &'a Directory,
    now: Moment,
    random: &[u8; 64],
    realm: u32,
    message: &'a KdcReq,
    read: &'a TgsRead,
    kept: Kept<'a>,
) -> Result<Bytes, ShowFault>
    requires realm { realm < length dir.now.realms }
    requires known { realm_named dir.now message.now.req_body.realm ≡ Some realm }
    requires kind { branch_of message.now ≡ tgs_branch message.now }
    requires asked { is_proxy (tgs_branch message.now) ≡ false }
    requires received { IsReceived message.now }
    requires read { IsTgsRead dir.now realm message.now read.now }
    requires kept { IsKept dir.now now message.now realm read.now.header (presented_seen kept.shown) kept.aim }
    ensures ok { IfOk result (λ bytes. first_failing (opened_rows dir.now now (request_to message.now realm) (tgs_branch message.now) (Some read.now.header)) ≡ None) }
    ensures value { IfOk result (λ bytes. bytes ≡ reply_bytes (grant_of dir.now now (request_to message.now realm)) random.now) }
    ensures err { IfErr result (IsDenial (first_failing (opened_rows dir.now now (request_to message.now realm) (tgs_branch message.now) (Some read.now.header)))) }
    ensures short { IfOk result (λ bytes. length bytes < 2 ^ 31) }
{
    dir.keeps_directory();
    let granted = match judge(alloc, dir, realm, now, message, read, kept) {
        Ok(granted) => granted,
        Err(fault) => return Err(fault),
    };
    let grant = find_grant(alloc, dir, realm, message, granted.grounds, granted.terms)?;
    Ok(reply(alloc, grant.as_ref(), random)?)
}

/// The evidence of a request for S4U2proxy, as a grant has it.
fn shown_of(evidence: &Evidence) -> ShownTicketView<'_>
    ensures { ticket_seen result ≡ ticket_shown_by evidence.now }
{
    ShownTicketView {
        rec: &evidence.certified.rec,
        part: &evidence.opened.part,
    }
}

/// The reply to a request for S4U2proxy to the realm at an index whose evidence was read, with the terms that it is granted.
fn reply_proxy<'a>(
    alloc: Global,
    dir: &'a Directory,
    now: Moment,
    random: &[u8; 64],
    realm: u32,
    message: &'a KdcReq,
    kept: Kept<'a>,
    evidence: &'a Evidence,
    terms: Terms,
) -> Result<Bytes, AllocError>
    requires realm { realm < length dir.now.realms }
    requires known { realm_named dir.now message.now.req_body.realm ≡ Some realm }
    requires received { IsReceived message.now }
    requires stands { grounds_of dir.now (request_to message.now realm) (branch_of message.now) ≡ Some (ByEvidence (presented_seen kept.shown) (ticket_shown_by evidence.now)) }
    requires given { terms_of dir.now now (request_to message.now realm) (ByEvidence (presented_seen kept.shown) (ticket_shown_by evidence.now)) ≡ Some terms }
    requires allowed { first_failing (rules_of_branch dir.now now (request_to message.now realm) (branch_of message.now)) ≡ None }
    ensures value { IfOk result (λ bytes. bytes ≡ reply_bytes (grant_of dir.now now (request_to message.now realm)) random.now) }
    ensures short { IfOk result (λ bytes. length bytes < 2 ^ 31) }
{
    dir.keeps_directory();
    let grounds = GroundsView::ByEvidence(kept.shown, shown_of(evidence));
    let grant = find_grant(alloc, dir, realm, message, grounds, terms)?;
    reply(alloc, grant.as_ref(), random)
}

/// The reply to a request for S4U2proxy to the realm at an index whose header keeps its rules.
///
/// # Errors
/// `Deny` with the first of the rules P1 to P12 and T1 that fails; `NoMemory`.
fn judge_proxy(
    alloc: Global,
    dir: &Directory,
    now: Moment,
    random: &[u8; 64],
    realm: u32,
    message: &KdcReq,
    read: &TgsRead,
    kept: Kept<'_>,
) -> Result<Bytes, ShowFault>
    requires realm { realm < length dir.now.realms }
    requires known { realm_named dir.now message.now.req_body.realm ≡ Some realm }
    requires kind { branch_of message.now ≡ tgs_branch message.now }
    requires asked { tgs_branch message.now ≡ Proxy }
    requires received { IsReceived message.now }
    requires read { IsTgsRead dir.now realm message.now read.now }
    requires kept { IsKept dir.now now message.now realm read.now.header (presented_seen kept.shown) kept.aim }
    ensures ok { IfOk result (λ bytes. first_failing (opened_rows dir.now now (request_to message.now realm) (tgs_branch message.now) (Some read.now.header)) ≡ None) }
    ensures value { IfOk result (λ bytes. bytes ≡ reply_bytes (grant_of dir.now now (request_to message.now realm)) random.now) }
    ensures err { IfErr result (IsDenial (first_failing (opened_rows dir.now now (request_to message.now realm) (tgs_branch message.now) (Some read.now.header)))) }
    ensures short { IfOk result (λ bytes. length bytes < 2 ^ 31) }
{
    let header = kept.shown.rec;
    let evidence = read_evidence(alloc, dir, realm, message, header)?;
    let view = evidence_view(&evidence);
    match decide_proxy(dir, realm, now, &read.wish, header, kept.aim, &view) {
        Decision::Deny(rule) => Err(ShowFault::Deny(rule)),
        Decision::Grant(terms) => Ok(reply_proxy(
            alloc, dir, now, random, realm, message, kept, &evidence, terms,
        )?),
    }
}

/// Whether S4U2proxy is asked for.
fn is_proxy(branch: Branch) -> bool
    ensures value { result ≡ is_proxy branch }
    ensures is { result ≡ true → branch ≡ Proxy }
{
    matches!(branch, Branch::Proxy)
}

/// The reply to a TGS-REQ to the realm at an index that was read.
///
/// # Errors
/// `Deny` with the first of the rules from G9 on that fails; `NoMemory`.
fn reply_read(
    alloc: Global,
    dir: &Directory,
    now: Moment,
    random: &[u8; 64],
    realm: u32,
    message: &KdcReq,
    read: &TgsRead,
) -> Result<Bytes, ShowFault>
    requires realm { realm < length dir.now.realms }
    requires known { realm_named dir.now message.now.req_body.realm ≡ Some realm }
    requires kind { branch_of message.now ≡ tgs_branch message.now }
    requires received { IsReceived message.now }
    requires read { IsTgsRead dir.now realm message.now read.now }
    ensures ok { IfOk result (λ bytes. first_failing (opened_rows dir.now now (request_to message.now realm) (tgs_branch message.now) (Some read.now.header)) ≡ None) }
    ensures value { IfOk result (λ bytes. bytes ≡ reply_bytes (grant_of dir.now now (request_to message.now realm)) random.now) }
    ensures err { IfErr result (IsDenial (first_failing (opened_rows dir.now now (request_to message.now realm) (tgs_branch message.now) (Some read.now.header)))) }
    ensures short { IfOk result (λ bytes. length bytes < 2 ^ 31) }
{
    let kept = match keep_header(dir, realm, now, message, read) {
        Ok(kept) => kept,
        Err(rule) => return Err(ShowFault::Deny(rule)),
    };
    if is_proxy(tgs_branch(message)) {
        judge_proxy(alloc, dir, now, random, realm, message, read, kept)
    } else {
        reply_kept(alloc, dir, now, random, realm, message, read, kept)
    }
}

/// The reply to a TGS-REQ to the realm at an index.
///
/// # Errors
/// `Deny` with the first of its rules that fails; `NoMemory`.
pub(crate) fn reply_tgs(
    alloc: Global,
    dir: &Directory,
    now: Moment,
    random: &[u8; 64],
    realm: u32,
    message: &KdcReq,
) -> Result<Bytes, ShowFault>
    requires realm { realm < length dir.now.realms }
    requires known { realm_named dir.now message.now.req_body.realm ≡ Some realm }
    requires kind { branch_of message.now ≡ tgs_branch message.now }
    requires received { IsReceived message.now }
    ensures ok { IfOk result (λ bytes. first_failing (tgs_rules dir.now now (request_to message.now realm) (tgs_branch message.now)) ≡ None) }
    ensures value { IfOk result (λ bytes. bytes ≡ reply_bytes (grant_of dir.now now (request_to message.now realm)) random.now) }
    ensures err { IfErr result (IsDenial (first_failing (tgs_rules dir.now now (request_to message.now realm) (tgs_branch message.now)))) }
    ensures short { IfOk result (λ bytes. length bytes < 2 ^ 31) }
{
    match read_tgs(alloc, dir, realm, message) {
        Ok(read) => reply_read(alloc, dir, now, random, realm, message, &read),
        Err(fault) => Err(fault),
    }
}
