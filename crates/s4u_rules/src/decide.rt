//! The verdict on a TGS-REQ whose header keeps its rules, and what it is granted (RFC 4120, section 3.3.3; MS-SFU,
//! section 3.2.5.1).
ghost use Rattle.std.specs.Prelude.{◌≡◌, ◌<◌, length};
ghost use Rattle.s4u_rules.specs.Outcomes.{IsVerdict};
ghost use Rattle.kdc_prelude.specs.Verdicts.{first_failing};
ghost use Rattle.s4u_rules.specs.HeaderViews.{self_seen};
ghost use Rattle.s4u_rules.specs.SelfRules.{self_appends, self_decision, self_flags, self_rules};
ghost use Rattle.s4u_rules.specs.TgsRules.{end_within, may_be_forwardable, ordinary_decision, ordinary_flags, terms_with};

use crate::header::SelfView;
use crate::issuer::issuer_is_appended;
use crate::self_rules::*;
use crate::self_user::user_is_local;
use dir_core::Directory;
use kdc_records::{
    Aim, Decision, Rule, Terms, TicketRec, Wish, bit_if, end_by, end_is_later, has_bit, kdc_option,
    require, session_type, ticket_flag,
};
use krb_names::{KTime, Moment};

/// When the ticket ends: as asked for, within the realm's longest life, and no later than the header.
fn end_within(dir: &Directory, at: u32, now: Moment, wish: &Wish, rec: &TicketRec) -> KTime
    requires { at < length dir.now.realms }
    ensures { result ≡ end_within dir.now at now wish.now rec.now }
{
    let longest = now.secs + dir.realm(at).max_life;
    end_by(wish.till, KTime::new(longest.min(rec.end.secs())))
}

/// Whether forwardable is asked for, and the header is.
fn may_be_forwardable(wish: &Wish, rec: &TicketRec) -> bool
    ensures { result ≡ may_be_forwardable wish.now rec.now }
{
    has_bit(wish.options, kdc_option::FORWARDABLE) && has_bit(rec.flags, ticket_flag::FORWARDABLE)
}

/// A ticket from now on, with these flags; the realm that issued the header is appended to its way or not.
fn terms_with(
    dir: &Directory,
    at: u32,
    now: Moment,
    wish: &Wish,
    rec: &TicketRec,
    aim: Aim,
    flags: u32,
    append: bool,
) -> Terms
    requires { at < length dir.now.realms }
    ensures { result ≡ terms_with dir.now at now wish.now rec.now aim flags append }
{
    Terms {
        aim,
        flags,
        start: KTime::new(now.secs),
        end: end_within(dir, at, now, wish, rec),
        session: session_type(wish.etypes.as_slice()),
        append,
    }
}

/// The flags of the ticket of an ordinary request: forwardable where that is asked for and the header is; pre-authent as
/// the header.
fn ordinary_flags(wish: &Wish, rec: &TicketRec) -> u32
    ensures { result ≡ ordinary_flags wish.now rec.now }
{
    bit_if(ticket_flag::FORWARDABLE, may_be_forwardable(wish, rec))
        + bit_if(
            ticket_flag::PRE_AUTHENT,
            has_bit(rec.flags, ticket_flag::PRE_AUTHENT),
        )
}

/// The verdict on an ordinary TGS-REQ to the realm at an index: T1, or what the ticket has. Takes no memory. `header` is the
/// record of a header that keeps its rules, and `aim` what the server is to the realm.
pub fn decide_tgs(
    dir: &Directory,
    realm: u32,
    now: Moment,
    wish: &Wish,
    header: &TicketRec,
    aim: Aim,
) -> Decision
    requires { realm < length dir.now.realms }
    ensures first { result ≡ ordinary_decision dir.now realm now wish.now header.now aim }
{
    if end_is_later(now, end_within(dir, realm, now, wish, header)) {
        Decision::Grant(terms_with(
            dir,
            realm,
            now,
            wish,
            header,
            aim,
            ordinary_flags(wish, header),
            issuer_is_appended(header),
        ))
    } else {
        Decision::Deny(Rule::T1)
    }
}

/// The first of S4 to S7 and T1 that fails.
fn check_self(
    dir: &Directory,
    at: u32,
    now: Moment,
    wish: &Wish,
    rec: &TicketRec,
) -> Result<(), Rule>
    requires { at < length dir.now.realms }
    ensures first { IsVerdict result (first_failing (self_rules dir.now at now wish.now rec.now)) }
{
    require(Rule::S4, server_is_the_requestor(dir, at, wish, rec))?;
    let Some(user) = &wish.user else {
        return Err(Rule::S5);
    };
    require(Rule::S5, user_fits_header(dir, at, rec, user))?;
    require(Rule::S6, user_is_known(dir, at, user))?;
    require(Rule::S7, user_is_enabled(dir, at, user))?;
    require(
        Rule::T1,
        end_is_later(now, end_within(dir, at, now, wish, rec)),
    )
}

/// The flags of the ticket of S4U2self: forwardable where that is asked for and the header is, the user is not marked,
/// and the service is trusted to authenticate.
fn self_flags(dir: &Directory, at: u32, wish: &Wish, rec: &TicketRec, aim: Aim) -> u32
    requires { at < length dir.now.realms }
    ensures { result ≡ self_flags dir.now at wish.now rec.now aim }
{
    let user_may_be = match &wish.user {
        Some(user) => user_may_be_delegated(dir, at, rec, user),
        None => false,
    };
    let forwardable = may_be_forwardable(wish, rec) && user_may_be && aim_is_trusted(dir, at, aim);
    bit_if(ticket_flag::FORWARDABLE, forwardable)
}

/// Whether the realm that issued the header is appended to the way of the ticket of S4U2self: the user is of another realm,
/// so that the ticket keeps the header's way.
fn self_appends(dir: &Directory, at: u32, rec: &TicketRec, wish: &Wish) -> bool
    requires { at < length dir.now.realms }
    ensures { result ≡ self_appends dir.now at rec.now wish.now }
{
    match &wish.user {
        Some(user) => !user_is_local(dir, at, user) && issuer_is_appended(rec),
        None => false,
    }
}

/// The verdict on a request for S4U2self to the realm at an index: the first of S1 to S7 and T1 that fails, or what the
/// ticket has. Takes no memory. `header` is the record of a header that keeps its rules, and `aim` what the server is to
/// the realm.
pub fn decide_self(
    dir: &Directory,
    realm: u32,
    now: Moment,
    wish: &Wish,
    header: &TicketRec,
    aim: Aim,
    view: &SelfView,
) -> Decision
    requires { realm < length dir.now.realms }
    ensures first { result ≡ self_decision dir.now realm now wish.now header.now aim (self_seen view.now) }
{
    if let SelfView::Wrong(rule) = *view {
        return Decision::Deny(rule);
    }
    match check_self(dir, realm, now, wish, header) {
        Err(rule) => Decision::Deny(rule),
        Ok(()) => Decision::Grant(terms_with(
            dir,
            realm,
            now,
            wish,
            header,
            aim,
            self_flags(dir, realm, wish, header, aim),
            self_appends(dir, realm, header, wish),
        )),
    }
}
