//! ACCOUNT: an account of a realm.
ghost use Rattle.std.specs.Prelude.{◌≡◌, ◌≤◌, ◌++◌, length, option_map, IfOk};
ghost use Rattle.serde_json.specs.View.{items_view, view};
ghost use Rattle.dir_text.specs.AccountText.{account_reading, accounts_of, marks_of, rights_of};
ghost use Rattle.dir_text.specs.Gives.{Gives};
ghost use Rattle.dir_text.specs.Members.{optional};
ghost use Rattle.dir_text.specs.Values.{salt_of};

use crate::key::key_in;
use crate::lists::{numbers_in, sids_in, spns_in};
use crate::members::{check_members, check_object, required};
use crate::values::{account_name_of, number_of, optional_flag, salt_of};
use dir_core::{Account, Accounts, DirPlace, DirRefusal};
use krb_names::{Items, Numbers, Sids, Text, Texts};
use serde_json::Value;
use std::alloc::{AllocError, Global};

const ACCOUNT_MEMBERS: [&str; 12] = [
    "name",
    "number",
    "key",
    "salt",
    "spns",
    "disabled",
    "not_delegated",
    "trusted_to_auth",
    "preauth",
    "classic",
    "resource",
    "groups",
];

/// The marks of an account.
#[derive(Clone, Copy, Debug)]
struct Marks {
    disabled: bool,
    not_delegated: bool,
    trusted_to_auth: bool,
    preauth: bool,
}

/// The lists of an account that give rights.
#[derive(Debug, Drop)]
struct Rights {
    classic: Texts,
    resource: Sids,
    groups: Numbers,
}

/// Reads an account of the realm with this name.
#[tactic(auto, unfolding(crate::specs::AccountText::account_reading))]
fn account_reading(
    alloc: Global,
    realm: &str,
    place: DirPlace,
    value: &Value,
) -> Result<Account, DirRefusal>
    ensures { Gives result (account_reading realm.now place (view value.now)) }
{
    check_object(place, value)?;
    let name = account_name_of(alloc, place, required(place, value.get("name"))?)?;
    let number = number_of(place, required(place, value.get("number"))?, 1, u32::MAX)?;
    let key = key_in(alloc, place, value.get("key"))?;
    let salt = salt_in(alloc, place, value.get("salt"), realm, name.as_str())?;
    let spns = spns_in(alloc, place, 32, value.get("spns"))?;
    let marks = marks_of(place, value)?;
    let rights = rights_of(alloc, place, value)?;
    check_members(alloc, place, value, &ACCOUNT_MEMBERS)?;
    Ok(Account {
        name,
        number,
        key,
        salt,
        spns,
        disabled: marks.disabled,
        not_delegated: marks.not_delegated,
        trusted_to_auth: marks.trusted_to_auth,
        preauth: marks.preauth,
        classic: rights.classic,
        resource: rights.resource,
        groups: rights.groups,
    })
}

/// Reads the marks of an account.
#[tactic(auto, unfolding(crate::specs::AccountText::marks_of))]
fn marks_of(place: DirPlace, value: &Value) -> Result<Marks, DirRefusal>
    ensures { result ≡ marks_of place (view value.now) }
{
    let disabled = optional_flag(place, value.get("disabled"), false)?;
    let not_delegated = optional_flag(place, value.get("not_delegated"), false)?;
    let trusted_to_auth = optional_flag(place, value.get("trusted_to_auth"), false)?;
    let preauth = optional_flag(place, value.get("preauth"), true)?;
    Ok(Marks {
        disabled,
        not_delegated,
        trusted_to_auth,
        preauth,
    })
}

/// Reads the lists of an account that give rights.
#[tactic(auto, unfolding(crate::specs::AccountText::rights_of))]
fn rights_of(alloc: Global, place: DirPlace, value: &Value) -> Result<Rights, DirRefusal>
    ensures { Gives result (rights_of place (view value.now)) }
{
    let classic = spns_in(alloc, place, 256, value.get("classic"))?;
    let resource = sids_in(alloc, place, 256, value.get("resource"))?;
    let groups = numbers_in(alloc, place, 128, value.get("groups"))?;
    Ok(Rights {
        classic,
        resource,
        groups,
    })
}

/// The salt of an account, or the default one: the realm's name and the account's.
fn salt_in(
    alloc: Global,
    place: DirPlace,
    found: Option<&Value>,
    realm: &str,
    name: &str,
) -> Result<Text, DirRefusal>
    ensures { Gives result (optional (realm.now ++ name.now) (salt_of place) (option_map (λ v. view v.now) found.entry)) }
{
    match found {
        Some(value) => salt_of(alloc, place, value),
        None => Ok(join(alloc, realm, name)?),
    }
}

fn join(alloc: Global, front: &str, back: &str) -> Result<Text, AllocError>
    ensures { IfOk result (λ text. text ≡ front.now ++ back.now) }
{
    let mut text = String::from_str(alloc, front)?;
    text.push_str(back)?;
    Ok(Text::from_string(text))
}

/// Reads the accounts of realm `i`, which has this name.
pub(crate) fn accounts_of(
    alloc: Global,
    realm: &str,
    i: u32,
    values: &[Value],
) -> Result<Accounts, DirRefusal>
    requires { length values.now ≤ 100000 }
    ensures count { IfOk result (λ accounts. length accounts ≡ length values.now) }
    ensures value { Gives result (accounts_of realm.now i 1 (items_view values.now)) }
{
    let mut accounts = Items::new(alloc);
    let mut n = 1;
    for value in values {
        accounts.push(account_reading(alloc, realm, DirPlace::Account(i, n), value)?)?;
        n += 1;
    }
    Ok(accounts)
}
