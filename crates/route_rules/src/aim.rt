//! What a realm aims at for the name of a server (RFC 4120, section 3.3.3).
ghost use Rattle.std.specs.Prelude.{◌≡◌, ◌<◌, IfSome, length};
ghost use Rattle.route_rules.specs.Aims.{HasAim, hop_to, resolve, resolve_account};
ghost use Rattle.route_rules.specs.Meanings.{HasAccount};

use crate::meaning::{Meaning, read_meaning};
use dir_core::{Aim, Directory};
use krb_names::Principal;

/// What the name aims at in the realm at an index. The parts `krbtgt`, C name the ticket-granting service of realm C; a
/// name of kind 10 (NT-ENTERPRISE) with one part `a@C`, cut at its last `@`, the account a of C; any other part alone
/// the account of this realm of that name; two or three parts, joined by `/`, the account that has this service
/// principal name, in the whole directory. What is of another realm is aimed at by the first trust that leads there.
/// Nothing where none does, or where there is no such realm or account. The realm beside the name plays no part.
#[tactic(auto, unfolding(crate::specs::Aims::resolve))]
pub fn resolve(dir: &Directory, realm: u32, name: &Principal) -> Option<Aim>
    requires { realm < length dir.now.realms }
    ensures found { result ≡ resolve dir.now realm name.now }
    ensures within { IfSome result (λ aim. HasAim dir.now realm aim) }
{
    match read_meaning(dir, realm, name) {
        Some(Meaning::RealmAt(other)) if other == realm => Some(Aim::Krbtgt),
        Some(Meaning::AccountAt(other, account)) if other == realm => Some(Aim::Account(account)),
        Some(Meaning::RealmAt(other) | Meaning::AccountAt(other, _)) => hop_to(dir, realm, other),
        None => None,
    }
}

/// The first trust of one realm that leads to another.
fn hop_to(dir: &Directory, realm: u32, other: u32) -> Option<Aim>
    requires realm { realm < length dir.now.realms }
    requires other { other < length dir.now.realms }
    ensures { result ≡ hop_to dir.now realm other }
{
    match dir.next_hop(realm, other) {
        Some(trust) => Some(Aim::Hop(trust)),
        None => None,
    }
}

/// The account that the name gives in the realm at an index, as the index of its realm and its own there, whether or
/// not a trust leads to it. Nothing where the name, read as by `resolve`, gives no account.
pub fn resolve_account(dir: &Directory, realm: u32, name: &Principal) -> Option<(u32, u32)>
    requires { realm < length dir.now.realms }
    ensures found { result ≡ resolve_account dir.now realm name.now }
    ensures within { IfSome result (λ place. HasAccount dir.now place.0 place.1) }
{
    match read_meaning(dir, realm, name) {
        Some(Meaning::AccountAt(other, account)) => Some((other, account)),
        _ => None,
    }
}
