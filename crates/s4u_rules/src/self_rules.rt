//! The rules of S4U2self, each by its name (MS-SFU, section 3.2.5.1).
ghost use Rattle.std.specs.Prelude.{◌≡◌, ◌<◌, length};
ghost use Rattle.std.specs.Option.{option_copied};
ghost use Rattle.kdc_prelude.specs.Options.{holds_of};
ghost use Rattle.route_rules.specs.Meanings.{HasAccount};
ghost use Rattle.s4u_rules.specs.SelfRules.{aim_is_trusted, is_served_client, is_user_of, server_is_the_requestor, user_fits_header, user_is_enabled, user_is_known, user_may_be_delegated};
ghost use Rattle.s4u_rules.specs.Conditions.{is_enabled, may_be_delegated};

use crate::header_rules::{is_enabled, is_for_its_client};
use crate::self_user::{is_user_name, user_is_local, user_realm, user_record};
use dir_core::{Account, Directory};
use kdc_records::{Aim, Subject, TicketRec, Wish, has_bit, is_user};
use krb_names::Principal;
use route_rules::resolve_account;

/// USER_NOT_DELEGATED of UserAccountControl, as a bit of 32, bit 0 the highest (MS-SAMR, section 2.2.1.13).
const USER_NOT_DELEGATED: u32 = 17;

/// Whether the client is the account at a place, and that account has a service principal name.
fn is_served_client(dir: &Directory, client: &Principal, realm: u32, account: u32) -> bool
    requires { HasAccount dir.now realm account }
    ensures { result ≡ is_served_client dir.now client.now (realm, account) }
{
    let realm = dir.realm(realm);
    match realm.accounts.get(account as usize) {
        Some(account) => {
            is_user(account.name.as_str(), realm.name.as_str(), client) && !account.spns.is_empty()
        }
        None => false,
    }
}

/// S4: the server is the requestor's own account, and that has a service principal name.
pub(crate) fn server_is_the_requestor(
    dir: &Directory,
    at: u32,
    wish: &Wish,
    rec: &TicketRec,
) -> bool
    requires { at < length dir.now.realms }
    ensures { result ≡ server_is_the_requestor dir.now at wish.now rec.now }
{
    let Some(server) = &wish.server else {
        return false;
    };
    match resolve_account(dir, at, server) {
        Some((realm, account)) => is_served_client(dir, &rec.client, realm, account),
        None => false,
    }
}

/// Whether the user of a ticket is the one that a name asks for.
fn is_user_of(subject: &Subject, name: &Principal) -> bool
    ensures { result ≡ is_user_of subject.now name.now }
{
    subject.realm.as_str() == user_realm(name) && is_user_name(subject.name.as_str(), name)
}

/// S5: where the user is of this realm, the header's user is its client; a user of another realm is the header's user.
pub(crate) fn user_fits_header(dir: &Directory, at: u32, rec: &TicketRec, user: &Principal) -> bool
    requires { at < length dir.now.realms }
    ensures { result ≡ user_fits_header dir.now at rec.now user.now }
{
    if user_is_local(dir, at, user) {
        is_for_its_client(rec)
    } else {
        is_user_of(&rec.subject, user)
    }
}

/// S6: a user of this realm is an account of it.
pub(crate) fn user_is_known(dir: &Directory, at: u32, user: &Principal) -> bool
    requires { at < length dir.now.realms }
    ensures { result ≡ user_is_known dir.now at user.now }
{
    !user_is_local(dir, at, user) || user_record(dir, at, user).is_some()
}

/// S7: that account is not disabled.
pub(crate) fn user_is_enabled(dir: &Directory, at: u32, user: &Principal) -> bool
    requires { at < length dir.now.realms }
    ensures { result ≡ user_is_enabled dir.now at user.now }
{
    !user_is_local(dir, at, user) || is_enabled(user_record(dir, at, user))
}

fn may_be_delegated(account: Option<&Account>) -> bool
    ensures { result ≡ holds_of may_be_delegated (option_copied account.entry) }
{
    match account {
        Some(account) => !account.not_delegated,
        None => false,
    }
}

/// Whether the user is not marked DelegationNotAllowed: by its account in this realm, or by USER_NOT_DELEGATED of the
/// header's user.
pub(crate) fn user_may_be_delegated(
    dir: &Directory,
    at: u32,
    rec: &TicketRec,
    user: &Principal,
) -> bool
    requires { at < length dir.now.realms }
    ensures { result ≡ user_may_be_delegated dir.now at rec.now user.now }
{
    if user_is_local(dir, at, user) {
        may_be_delegated(user_record(dir, at, user))
    } else {
        !has_bit(rec.subject.control, USER_NOT_DELEGATED)
    }
}

/// Whether an account that is aimed at is trusted to authenticate.
pub(crate) fn aim_is_trusted(dir: &Directory, at: u32, aim: Aim) -> bool
    requires { at < length dir.now.realms }
    ensures { result ≡ aim_is_trusted dir.now at aim }
{
    match aim {
        Aim::Account(account) => match dir.account_at(at, account) {
            Some(found) => found.trusted_to_auth,
            None => false,
        },
        Aim::Krbtgt | Aim::Hop(_) => true,
    }
}
