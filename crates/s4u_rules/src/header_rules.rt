//! The rules of a TGS-REQ whose header was opened, each by its name (RFC 4120, section 3.3.3).
ghost use Rattle.std.specs.Prelude.{◌≡◌, ◌<◌, ◌≤◌, IfSome, MatchResult, None, Some, [], ◌∷◌, length};
ghost use Rattle.std.specs.Option.{option_copied};
ghost use Rattle.kdc_prelude.specs.Options.{holds_of};
ghost use Rattle.kdc_prelude.specs.Verdicts.{first_failing};
ghost use Rattle.kdc_records.specs.declared.rule.Rule.TheVariants.{G15, G16};
ghost use Rattle.route_rules.specs.Aims.{HasAim};
ghost use Rattle.route_rules.specs.Cross.{is_reached_subject, is_reached_way};
ghost use Rattle.s4u_rules.specs.Conditions.{is_enabled};
ghost use Rattle.s4u_rules.specs.TgsRules.{aim_is_allowed, aim_is_enabled, aim_of, etype_is_listed, has_sid_of, header_has_begun, header_is_certified, header_is_own, header_lasts, is_for_its_client, is_local, is_self, is_the_subject, options_are_plain, requestor_is_enabled, requestor_is_known, requestor_record, stamp_is_fresh};

use crate::header::ShownView;
use crate::issuer::issuing_realm;
use dir_core::{Account, Directory, RealmRec};
use dir_records::Entry;
use kdc_records::{
    Aim, Branch, Holder, Rule, Subject, TicketRec, Wish, are_clear, is_user, kdc_option,
};
use krb_names::{Etype, Moment};
use route_rules::{cross_ok, requestor_account, resolve};

/// How long after now a header may start, in seconds.
const LATEST_START: u64 = 300;

/// G9: the authenticator was made within 300 seconds of now.
pub(crate) fn stamp_is_fresh(now: Moment, header: &ShownView) -> bool
    ensures { result ≡ stamp_is_fresh now header.now }
{
    header.stamp.is_within_skew(now)
}

/// G10: the header starts at most 300 seconds after now, and is not invalid.
pub(crate) fn header_has_begun(now: Moment, header: &ShownView) -> bool
    ensures { result ≡ header_has_begun now header.now }
{
    header.start.secs() <= now.secs + LATEST_START && !header.invalid
}

/// G11: now is earlier than the header's end.
pub(crate) fn header_lasts(now: Moment, header: &ShownView) -> bool
    ensures { result ≡ header_lasts now header.now }
{
    now.secs < header.end.secs()
}

/// Whether the client and the user of a ticket are one.
pub(crate) fn is_for_its_client(rec: &TicketRec) -> bool
    ensures { result ≡ is_for_its_client rec.now }
{
    is_user(
        rec.subject.name.as_str(),
        rec.subject.realm.as_str(),
        &rec.client,
    )
}

/// Whether the requestor is of this realm.
fn is_local(realm: &RealmRec, rec: &TicketRec) -> bool
    ensures { result ≡ is_local realm.now rec.now }
{
    rec.client.realm.as_str() == realm.name.as_str()
}

/// The requestor's account.
fn requestor_record<'a>(dir: &'a Directory, at: u32, rec: &TicketRec) -> Option<&'a Account>
    requires { at < length dir.now.realms }
    ensures { option_copied result ≡ requestor_record dir.now at rec.now }
{
    match requestor_account(dir, at, &rec.client) {
        Some(account) => dir.account_at(at, account),
        None => None,
    }
}

/// Whether the account has the SID of the header's user.
fn has_sid_of(realm: &RealmRec, subject: &Subject, account: &Account) -> bool
    requires { length realm.now.sid.numbers ≤ 14 }
    ensures { result ≡ has_sid_of realm.now subject.now account.now }
{
    realm.sid.followed_by(account.number).is_same(&subject.sid)
}

/// Whether the account, if there is one, is the user that the header names, where that is for its own client.
fn is_the_subject(realm: &RealmRec, rec: &TicketRec, account: Option<&Account>) -> bool
    requires { length realm.now.sid.numbers ≤ 14 }
    ensures { result ≡ holds_of (is_the_subject realm.now rec.now) (option_copied account.entry) }
{
    match account {
        Some(account) => !is_for_its_client(rec) || has_sid_of(realm, &rec.subject, account),
        None => false,
    }
}

/// G13: a requestor of this realm has an account, and where it is the header's user too, that account has the user's SID.
pub(crate) fn requestor_is_known(dir: &Directory, at: u32, rec: &TicketRec) -> bool
    requires { at < length dir.now.realms }
    ensures { result ≡ requestor_is_known dir.now at rec.now }
{
    let realm = dir.realm(at);
    !is_local(realm, rec) || is_the_subject(realm, rec, requestor_record(dir, at, rec))
}

/// Whether the account, if there is one, is not disabled.
pub(crate) fn is_enabled(account: Option<&Account>) -> bool
    ensures { result ≡ holds_of is_enabled (option_copied account.entry) }
{
    match account {
        Some(account) => !account.disabled,
        None => false,
    }
}

/// G14: the account of a requestor of this realm is not disabled.
pub(crate) fn requestor_is_enabled(dir: &Directory, at: u32, rec: &TicketRec) -> bool
    requires { at < length dir.now.realms }
    ensures { result ≡ requestor_is_enabled dir.now at rec.now }
{
    let realm = dir.realm(at);
    !is_local(realm, rec) || is_enabled(requestor_record(dir, at, rec))
}

/// G15 and G16: a cross-realm ticket keeps to what this realm's trust in the realm that issued it reaches.
pub(crate) fn check_reach(dir: &Directory, at: u32, rec: &TicketRec) -> Result<(), Rule>
    requires { at < length dir.now.realms }
    ensures first { MatchResult result (λ done. first_failing ((G15, is_reached_subject dir.now at rec.now) ∷ (G16, is_reached_way dir.now at rec.now) ∷ []) ≡ None) (λ rule. first_failing ((G15, is_reached_subject dir.now at rec.now) ∷ (G16, is_reached_way dir.now at rec.now) ∷ []) ≡ Some rule) }
{
    match &rec.holder {
        Holder::Trust { realm, .. } => match dir.realm_by_name(realm.as_str()) {
            Some(from) => cross_ok(dir, at, from, rec),
            None => Err(Rule::G15),
        },
        Holder::Krbtgt { .. } | Holder::Account { .. } => Ok(()),
    }
}

/// G18: forwarded, proxy, enc-tkt-in-skey, renew and validate are not asked for, and not both forms of S4U at once.
pub(crate) fn options_are_plain(wish: &Wish) -> bool
    ensures { result ≡ options_are_plain wish.now }
{
    are_clear(
        &[
            kdc_option::FORWARDED,
            kdc_option::PROXY,
            kdc_option::ENC_TKT_IN_SKEY,
            kdc_option::RENEW,
            kdc_option::VALIDATE,
        ],
        wish.options,
    ) && !wish.both
}

/// What the server is to the realm at an index.
pub(crate) fn aim_of(dir: &Directory, at: u32, wish: &Wish) -> Option<Aim>
    requires { at < length dir.now.realms }
    ensures found { result ≡ aim_of dir.now at wish.now }
    ensures within { IfSome result (λ aim. HasAim dir.now at aim) }
{
    match &wish.server {
        Some(server) => resolve(dir, at, server),
        None => None,
    }
}

/// G19: the server is this realm's krbtgt only where the header is no cross-realm ticket.
pub(crate) fn aim_is_allowed(rec: &TicketRec, aim: Aim) -> bool
    ensures { result ≡ aim_is_allowed rec.now aim }
{
    match aim {
        Aim::Krbtgt => issuing_realm(&rec.holder).is_none(),
        Aim::Hop(_) | Aim::Account(_) => true,
    }
}

/// G20: an account that is aimed at is not disabled.
pub(crate) fn aim_is_enabled(dir: &Directory, at: u32, aim: Aim) -> bool
    requires { at < length dir.now.realms }
    ensures { result ≡ aim_is_enabled dir.now at aim }
{
    match aim {
        Aim::Account(account) => is_enabled(dir.account_at(at, account)),
        Aim::Krbtgt | Aim::Hop(_) => true,
    }
}

/// G21: the etype list has 17 or 18.
pub(crate) fn etype_is_listed(wish: &Wish) -> bool
    ensures { result ≡ etype_is_listed wish.now }
{
    wish.etypes
        .as_slice()
        .iter()
        .any(|number| Etype::from_number(*number).is_some())
}

fn is_self(branch: Branch) -> bool
    ensures { result ≡ is_self branch }
{
    matches!(branch, Branch::SelfTicket)
}

/// G22: the header has no delegation, and but for S4U2self its user is its client.
pub(crate) fn header_is_own(wish: &Wish, rec: &TicketRec) -> bool
    ensures { result ≡ header_is_own wish.now rec.now }
{
    rec.delegation.is_none() && (is_self(wish.branch) || is_for_its_client(rec))
}
