//! The user of S4U2self (MS-SFU, section 3.2.5.1.1).
ghost use Rattle.std.specs.Prelude.{◌≡◌, ◌<◌, ℕ, List, None, length, option_map};
ghost use Rattle.std.specs.List.{join_with_byte};
ghost use Rattle.std.specs.Option.{option_copied};
ghost use Rattle.kdc_prelude.specs.Texts.{same_text};
ghost use Rattle.dir_core.specs.Lookups.{account_named, only_part};
ghost use Rattle.s4u_rules.specs.SelfRules.{enterprise_user, user_asked, user_is_local, user_record};

use crate::texts::is_joined;
use dir_core::{Account, Directory};
use krb_names::{Principal, Text};
use route_rules::enterprise_pieces;

/// The account and the realm that an enterprise name of one part `a@C` has.
pub fn enterprise_user(name: &Principal) -> Option<(&str, &str)>
    ensures { option_map (λ pieces. (pieces.0.now, pieces.1.now)) result ≡ enterprise_user name.now }
{
    match name.parts.as_slice() {
        [part] => enterprise_pieces(name.kind, part.as_str()),
        _ => None,
    }
}

/// The realm of the user that a name asks for.
#[tactic(auto, unfolding(crate::specs::SelfRules::user_asked))]
pub fn user_realm(name: &Principal) -> &str
    ensures { result.now ≡ (user_asked name.now).1 }
{
    match enterprise_user(name) {
        Some((_, realm)) => realm,
        None => name.realm.as_str(),
    }
}

/// Whether the text is the name of the user that a name asks for, in its realm.
#[tactic(auto, unfolding(crate::specs::SelfRules::user_asked))]
pub(crate) fn is_user_name(text: &str, name: &Principal) -> bool
    ensures { result ≡ same_text text.now (user_asked name.now).0 }
{
    match enterprise_user(name) {
        Some((user, _)) => text == user,
        None => is_joined(text, name.parts.as_slice()),
    }
}

/// No account of a directory has a name that is joined of none or several parts.
fn names_have_one_part(dir: &Directory)
    ensures { (at : ℕ) (parts : List (List ℕ)) → only_part parts ≡ None → account_named dir.now at (join_with_byte 47 parts) ≡ None }
{
    dir.keeps_directory();
}

/// The account of the realm at an index that has the parts, joined by `/`, as its name.
fn account_of_parts(dir: &Directory, at: u32, parts: &[Text]) -> Option<u32>
    requires { at < length dir.now.realms }
    ensures { result ≡ account_named dir.now at (join_with_byte 47 parts.now) }
{
    names_have_one_part(dir);
    match parts {
        [part] => dir.account_by_name(at, part.as_str()),
        _ => None,
    }
}

/// The account of the realm at an index that has the user's name.
#[tactic(auto, unfolding(crate::specs::SelfRules::user_asked))]
fn user_account(dir: &Directory, at: u32, name: &Principal) -> Option<u32>
    requires { at < length dir.now.realms }
    ensures { result ≡ account_named dir.now at (user_asked name.now).0 }
{
    match enterprise_user(name) {
        Some((user, _)) => dir.account_by_name(at, user),
        None => account_of_parts(dir, at, name.parts.as_slice()),
    }
}

/// Whether the user is of the realm at an index.
pub(crate) fn user_is_local(dir: &Directory, at: u32, name: &Principal) -> bool
    requires { at < length dir.now.realms }
    ensures { result ≡ user_is_local dir.now at name.now }
{
    user_realm(name) == dir.realm(at).name.as_str()
}

/// The user's account in the realm at an index, where it is of that realm.
#[tactic(auto, unfolding(crate::specs::SelfRules::user_record))]
pub fn user_record<'a>(dir: &'a Directory, at: u32, name: &Principal) -> Option<&'a Account>
    requires { at < length dir.now.realms }
    ensures { option_copied result ≡ user_record dir.now at name.now }
{
    if !user_is_local(dir, at, name) {
        return None;
    }
    match user_account(dir, at, name) {
        Some(account) => dir.account_at(at, account),
        None => None,
    }
}
