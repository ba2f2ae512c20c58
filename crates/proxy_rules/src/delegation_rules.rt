//! The rules of a delegation, each by its name (MS-SFU, section 3.2.5.2).
ghost use Rattle.std.specs.Prelude.{◌≡◌, ◌<◌, length, min};
ghost use Rattle.std.specs.Option.{option_copied};
ghost use Rattle.s4u_rules.specs.Conditions.{lists_target};
ghost use Rattle.proxy_rules.specs.ProxyRules.{by_lists, by_own_list, by_referral, by_targets_list, chain_is_short, delegation_is_allowed, proxy_end, services_of, target_is_account};

use crate::evidence_rules::{is_forwardable, user_is_unmarked};
use crate::parties::{requestor_is_local, requestor_record};
use dir_core::{Account, Directory, has_text};
use dir_records::is_among;
use kdc_records::{Aim, Delegation, TicketRec, Wish, end_by};
use krb_names::{KTime, Moment, Text};
use route_rules::resolve_account;

/// As many services have delegated at most, once the requestor has.
const MOST_SERVICES: usize = 32;

/// Whether the target has a service principal name of the list.
fn lists_target(classic: &[Text], target: &Account) -> bool
    ensures { result ≡ lists_target classic.now target.now }
{
    classic
        .iter()
        .any(|spn| has_text(target.spns.as_slice(), spn.as_str()))
}

/// Whether constrained delegation by the requestor's own list is allowed.
fn by_own_list(
    dir: &Directory,
    realm: u32,
    header: &TicketRec,
    evidence: &TicketRec,
    target: &Account,
) -> bool
    requires { realm < length dir.now.realms }
    ensures { result ≡ by_own_list dir.now realm header.now evidence.now target.now }
{
    let Some(requestor) = requestor_record(dir, realm, header) else {
        return false;
    };
    requestor_is_local(dir, realm, header)
        && is_forwardable(evidence)
        && lists_target(requestor.classic.as_slice(), target)
}

/// Whether resource-based constrained delegation is allowed.
fn by_targets_list(wish: &Wish, header: &TicketRec, evidence: &TicketRec, target: &Account) -> bool
    ensures { result ≡ by_targets_list wish.now header.now evidence.now target.now }
{
    wish.rbcd
        && user_is_unmarked(evidence)
        && is_among(&header.subject.sid, target.resource.as_slice())
}

/// Whether the target is an account of this realm, and it or the requestor lists the other.
fn by_lists(
    dir: &Directory,
    realm: u32,
    wish: &Wish,
    header: &TicketRec,
    evidence: &TicketRec,
    target: Option<&Account>,
) -> bool
    requires { realm < length dir.now.realms }
    ensures { result ≡ by_lists dir.now realm wish.now header.now evidence.now (option_copied target.entry) }
{
    match target {
        Some(target) => {
            by_own_list(dir, realm, header, evidence, target)
                || by_targets_list(wish, header, evidence, target)
        }
        None => false,
    }
}

/// Whether the name that is asked for is an account's, of this realm or of another.
fn target_is_account(dir: &Directory, realm: u32, wish: &Wish) -> bool
    requires { realm < length dir.now.realms }
    ensures { result ≡ target_is_account dir.now realm wish.now }
{
    match &wish.server {
        Some(server) => resolve_account(dir, realm, server).is_some(),
        None => false,
    }
}

/// Whether the request is referred to the realm of a target that is another realm's account.
fn by_referral(dir: &Directory, realm: u32, wish: &Wish, evidence: &TicketRec) -> bool
    requires { realm < length dir.now.realms }
    ensures { result ≡ by_referral dir.now realm wish.now evidence.now }
{
    target_is_account(dir, realm, wish) && wish.rbcd && user_is_unmarked(evidence)
}

/// P11: the target is an account of this realm, and it or the requestor lists the other; or it is an account of another
/// realm, and the request is referred there.
pub(crate) fn delegation_is_allowed(
    dir: &Directory,
    realm: u32,
    wish: &Wish,
    header: &TicketRec,
    evidence: &TicketRec,
    aim: Aim,
) -> bool
    requires { realm < length dir.now.realms }
    ensures { result ≡ delegation_is_allowed dir.now realm wish.now header.now evidence.now aim }
{
    match aim {
        Aim::Krbtgt => false,
        Aim::Hop(_) => by_referral(dir, realm, wish, evidence),
        Aim::Account(account) => {
            let target = dir.account_at(realm, account);
            by_lists(dir, realm, wish, header, evidence, target)
        }
    }
}

/// The services that have delegated.
pub(crate) fn services_of(delegation: Option<&Delegation>) -> &[Text]
    ensures { result.now ≡ services_of (option_copied delegation.entry) }
{
    match delegation {
        Some(delegation) => delegation.services.as_slice(),
        None => &[],
    }
}

/// P12: where the requestor is of this realm, fewer than 32 services have delegated.
pub(crate) fn chain_is_short(
    dir: &Directory,
    realm: u32,
    header: &TicketRec,
    evidence: &TicketRec,
) -> bool
    requires { realm < length dir.now.realms }
    ensures { result ≡ chain_is_short dir.now realm header.now evidence.now }
{
    !requestor_is_local(dir, realm, header)
        || services_of(evidence.delegation.as_ref()).len() < MOST_SERVICES
}

/// The earlier of two times.
fn earlier(a: KTime, b: KTime) -> KTime
    ensures { result ≡ min a b }
{
    if b.secs() < a.secs() { b } else { a }
}

/// When the ticket ends: as asked for, within the realm's longest life, and no later than the header and the evidence.
pub(crate) fn proxy_end(
    dir: &Directory,
    realm: u32,
    now: Moment,
    wish: &Wish,
    header: &TicketRec,
    evidence: &TicketRec,
) -> KTime
    requires { realm < length dir.now.realms }
    ensures { result ≡ proxy_end dir.now realm now wish.now header.now evidence.now }
{
    let longest = KTime::new(now.secs + dir.realm(realm).max_life);
    end_by(
        wish.till,
        earlier(longest, earlier(header.end, evidence.end)),
    )
}
