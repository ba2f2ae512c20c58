//! The verdict on the header of a TGS-REQ, and on what the request asks for (RFC 4120, section 3.3.3).
ghost use Rattle.std.specs.Prelude.{◌≡◌, ◌<◌, IfOk, IfSome, MatchResult, None, OnOk, Some, is_some, length, true};
ghost use Rattle.std.specs.Option.{option_copied};
ghost use Rattle.kdc_prelude.specs.Verdicts.{first_failing};
ghost use Rattle.route_rules.specs.Aims.{HasAim};
ghost use Rattle.s4u_rules.specs.HeaderViews.{header_seen};
ghost use Rattle.s4u_rules.specs.Headers.{record_of};
ghost use Rattle.s4u_rules.specs.TgsRules.{aim_of, header_rules, header_verdict, opened_rules, party_rules, wish_rules};

use crate::header::{HeaderView, ShownView};
use crate::header_rules::*;
use dir_core::Directory;
use kdc_records::{Aim, Rule, TicketRec, Wish, require, start_is_now};
use krb_names::Moment;

/// The record of a header that was opened, or the first of G9 to G12 that fails.
fn check_opened<'a>(now: Moment, header: &ShownView<'a>) -> Result<&'a TicketRec, Rule>
    ensures first { MatchResult result (λ rec. (first_failing (opened_rules now header.now) ≡ None) × (header.now.rec ≡ Some rec.now)) (λ rule. first_failing (opened_rules now header.now) ≡ Some rule) }
{
    require(Rule::G9, stamp_is_fresh(now, header))?;
    require(Rule::G10, header_has_begun(now, header))?;
    require(Rule::G11, header_lasts(now, header))?;
    match header.rec {
        Some(rec) => Ok(rec),
        None => Err(Rule::G12),
    }
}

/// The first of G13 to G16 that fails.
fn check_parties(dir: &Directory, at: u32, rec: &TicketRec) -> Result<(), Rule>
    requires { at < length dir.now.realms }
    ensures first { MatchResult result (λ done. first_failing (party_rules dir.now at (Some rec.now)) ≡ None) (λ rule. first_failing (party_rules dir.now at (Some rec.now)) ≡ Some rule) }
{
    require(Rule::G13, requestor_is_known(dir, at, rec))?;
    require(Rule::G14, requestor_is_enabled(dir, at, rec))?;
    check_reach(dir, at, rec)
}

/// What the server is to the realm at an index, or the first of G17 to G22 that fails.
fn check_wish(
    dir: &Directory,
    at: u32,
    now: Moment,
    wish: &Wish,
    rec: &TicketRec,
) -> Result<Aim, Rule>
    requires { at < length dir.now.realms }
    ensures first { MatchResult result (λ aim. (first_failing (wish_rules dir.now at now wish.now (Some rec.now)) ≡ None) × (aim_of dir.now at wish.now ≡ Some aim)) (λ rule. first_failing (wish_rules dir.now at now wish.now (Some rec.now)) ≡ Some rule) }
    ensures within { IfOk result (λ aim. HasAim dir.now at aim) }
{
    require(Rule::G17, start_is_now(now, wish))?;
    require(Rule::G18, options_are_plain(wish))?;
    let Some(aim) = aim_of(dir, at, wish) else {
        return Err(Rule::G19);
    };
    require(Rule::G19, aim_is_allowed(rec, aim))?;
    require(Rule::G20, aim_is_enabled(dir, at, aim))?;
    require(Rule::G21, etype_is_listed(wish))?;
    require(Rule::G22, header_is_own(wish, rec))?;
    Ok(aim)
}

/// The aim, or the first of G9 to G22 that fails.
#[tactic(auto, using(crate::proofs::Tables::party_fails, crate::proofs::Tables::by_wish))]
fn check_shown(
    dir: &Directory,
    at: u32,
    now: Moment,
    wish: &Wish,
    header: &ShownView,
) -> Result<Aim, Rule>
    requires { at < length dir.now.realms }
    ensures first { MatchResult result (λ aim. (first_failing (header_rules dir.now at now wish.now header.now) ≡ None) × (aim_of dir.now at wish.now ≡ Some aim)) (λ rule. first_failing (header_rules dir.now at now wish.now header.now) ≡ Some rule) }
    ensures within { IfOk result (λ aim. HasAim dir.now at aim) }
    ensures shown { OnOk result (is_some header.now.rec ≡ true) }
{
    let rec = check_opened(now, header)?;
    check_parties(dir, at, rec)?;
    check_wish(dir, at, now, wish, rec)
}

/// What the server of a TGS-REQ to the realm at an index is to it, where the header keeps its rules. Takes no memory.
///
/// # Errors
/// The first of the rules G1 to G22 that fails.
pub fn check_header(
    dir: &Directory,
    realm: u32,
    now: Moment,
    wish: &Wish,
    header: &HeaderView,
) -> Result<Aim, Rule>
    requires { realm < length dir.now.realms }
    ensures first { MatchResult result (λ aim. (header_verdict dir.now realm now wish.now (header_seen header.now) ≡ None) × (aim_of dir.now realm wish.now ≡ Some aim)) (λ rule. header_verdict dir.now realm now wish.now (header_seen header.now) ≡ Some rule) }
    ensures within { IfOk result (λ aim. HasAim dir.now realm aim) }
    // What is granted has a record.
    ensures shown { OnOk result (is_some (record_of (header_seen header.now)) ≡ true) }
{
    match *header {
        HeaderView::Wrong(rule) => Err(rule),
        HeaderView::Shown {
            stamp,
            start,
            end,
            invalid,
            rec,
        } => check_shown(
            dir,
            realm,
            now,
            wish,
            &ShownView {
                stamp,
                start,
                end,
                invalid,
                rec,
            },
        ),
    }
}
