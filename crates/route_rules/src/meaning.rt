//! What the name of a server means (RFC 4120, sections 6.2 and 7.3).
ghost use Rattle.std.specs.Prelude.{◌≡◌, ◌<◌, IfSome, Some, length, option_map};
ghost use Rattle.dir_core.specs.Lookups.{place_in};
ghost use Rattle.krb_names.specs.Principals.{round_last_at};
ghost use Rattle.route_rules.specs.Meanings.{HasAccount, HasMeant, account_meant, enterprise_pieces, meaning, place_of_part, service_meant};

use crate::services::place_of_service;
use dir_core::Directory;
use krb_names::Principal;

/// NT-ENTERPRISE (RFC 4120, section 6.2): the one part may be an account and its realm, joined by `@`.
const NT_ENTERPRISE: i32 = 10;

/// What a name means.
#[derive(Clone, Copy)]
pub(crate) enum Meaning {
    /// The ticket-granting service of the realm at this index.
    RealmAt(u32),
    /// In the realm at the first index, the account at the second.
    AccountAt(u32, u32),
}

/// What the name means in the realm at an index.
pub(crate) fn read_meaning(dir: &Directory, realm: u32, name: &Principal) -> Option<Meaning>
    requires { realm < length dir.now.realms }
    ensures found { result ≡ meaning dir.now realm name.now }
    ensures within { IfSome result (λ meant. HasMeant dir.now meant) }
{
    let parts = name.parts.as_slice();
    match parts {
        [part] => account_meant(place_of_part(dir, realm, name.kind, part.as_str())),
        [first, second] => {
            if first.as_str() == "krbtgt" {
                service_meant(dir.realm_by_name(second.as_str()))
            } else {
                account_meant(place_of_service(dir, parts))
            }
        }
        [_, _, _] => account_meant(place_of_service(dir, parts)),
        _ => None,
    }
}

fn service_meant(realm: Option<u32>) -> Option<Meaning>
    ensures { result ≡ service_meant realm }
{
    match realm {
        Some(realm) => Some(Meaning::RealmAt(realm)),
        None => None,
    }
}

fn account_meant(place: Option<(u32, u32)>) -> Option<Meaning>
    ensures { result ≡ account_meant place }
{
    match place {
        Some((realm, account)) => Some(Meaning::AccountAt(realm, account)),
        None => None,
    }
}

/// The account that one part of a name of this kind gives, the index of its realm and its own there.
fn place_of_part(dir: &Directory, realm: u32, kind: i32, part: &str) -> Option<(u32, u32)>
    requires { realm < length dir.now.realms }
    ensures found { result ≡ place_of_part dir.now realm part.now (enterprise_pieces kind part.now) }
    ensures within { IfSome result (λ place. HasAccount dir.now place.0 place.1) }
{
    match enterprise_pieces(kind, part) {
        Some((account, other)) => match dir.realm_by_name(other) {
            Some(other) => place_in(dir, other, account),
            None => None,
        },
        None => place_in(dir, realm, part),
    }
}

/// The account and the realm that the one part of a name of this kind has, where it has both: `a` and `C` of the part
/// `a@C`, cut at its last `@`, of kind 10 (NT-ENTERPRISE).
pub fn enterprise_pieces(kind: i32, part: &str) -> Option<(&str, &str)>
    ensures { option_map (λ pieces. (pieces.0.now, pieces.1.now)) result ≡ enterprise_pieces kind part.now }
{
    if kind == NT_ENTERPRISE {
        split_last_at(part)
    } else {
        None
    }
}

fn split_last_at(text: &str) -> Option<(&str, &str)>
    ensures { option_map (λ pieces. (pieces.0.now, pieces.1.now)) result ≡ round_last_at text.now }
{
    text.rsplit_once('@')
}

/// The account of this name in the realm at an index, as that index and its own.
fn place_in(dir: &Directory, realm: u32, account: &str) -> Option<(u32, u32)>
    requires { realm < length dir.now.realms }
    ensures found { result ≡ place_in dir.now (Some account.now) (Some realm) }
    ensures within { IfSome result (λ place. HasAccount dir.now place.0 place.1) }
{
    match dir.account_by_name(realm, account) {
        Some(account) => Some((realm, account)),
        None => None,
    }
}
