//! REALM: a realm with its accounts and trusts.
ghost use Rattle.std.specs.Prelude.{◌≡◌, ◌≤◌, length, option_map, IfOk};
ghost use Rattle.serde_json.specs.View.{items_view, view};
ghost use Rattle.dir_text.specs.Gives.{Gives};
ghost use Rattle.dir_text.specs.Members.{optional};
ghost use Rattle.dir_text.specs.RealmText.{accounts_in, realm_of, realms_of, trusts_in};
ghost use Rattle.dir_text.specs.Values.{number_of};

use crate::account::accounts_of;
use crate::key::key_in;
use crate::lists::entries_in;
use crate::members::{check_members, check_object, required};
use crate::trust::trusts_of;
use crate::values::{number_of, realm_name_of, realm_sid_of};
use dir_core::{Accounts, DirPlace, DirRefusal, RealmRec, Trusts};
use krb_names::Items;
use serde_json::Value;
use std::alloc::Global;

/// How long tickets last where nothing else is said, in seconds.
const DEFAULT_LIFE: u32 = 36_000;

/// The longest that tickets may last, in seconds.
const MAX_LIFE: u32 = 31_536_000;

const REALM_MEMBERS: [&str; 6] = ["name", "sid", "krbtgt", "max_life", "accounts", "trusts"];

/// Reads realm `i`, with room for so many accounts.
#[tactic(auto, unfolding(crate::specs::RealmText::realm_of))]
fn realm_of(alloc: Global, i: u32, room: usize, value: &Value) -> Result<RealmRec, DirRefusal>
    requires { room ≤ 100000 }
    ensures few { IfOk result (λ realm. length realm.accounts ≤ room) }
    ensures value { Gives result (realm_of i room (view value.now)) }
{
    let place = DirPlace::Realm(i);
    check_object(place, value)?;
    let name = realm_name_of(alloc, place, required(place, value.get("name"))?)?;
    let sid = realm_sid_of(place, required(place, value.get("sid"))?)?;
    let krbtgt = key_in(alloc, place, value.get("krbtgt"))?;
    let max_life = life_in(place, value.get("max_life"))?;
    let accounts = accounts_in(alloc, name.as_str(), i, room, value.get("accounts"))?;
    let trusts = trusts_in(alloc, i, value.get("trusts"))?;
    check_members(alloc, place, value, &REALM_MEMBERS)?;
    Ok(RealmRec {
        name,
        sid,
        krbtgt,
        max_life: u64::from(max_life),
        accounts,
        trusts,
    })
}

fn life_in(place: DirPlace, found: Option<&Value>) -> Result<u32, DirRefusal>
    ensures { result ≡ optional 36000 (number_of place 1 31536000) (option_map (λ v. view v.now) found.entry) }
{
    match found {
        Some(value) => number_of(place, value, 1, MAX_LIFE),
        None => Ok(DEFAULT_LIFE),
    }
}

#[tactic(auto, unfolding(crate::specs::RealmText::accounts_in))]
fn accounts_in(
    alloc: Global,
    realm: &str,
    i: u32,
    room: usize,
    found: Option<&Value>,
) -> Result<Accounts, DirRefusal>
    requires { room ≤ 100000 }
    ensures few { IfOk result (λ accounts. length accounts ≤ room) }
    ensures value { Gives result (accounts_in realm.now i room (option_map (λ v. view v.now) found.entry)) }
{
    let values = entries_in(DirPlace::Realm(i), room, found)?;
    accounts_of(alloc, realm, i, values)
}

#[tactic(auto, unfolding(crate::specs::RealmText::trusts_in))]
fn trusts_in(alloc: Global, i: u32, found: Option<&Value>) -> Result<Trusts, DirRefusal>
    ensures { Gives result (trusts_in i (option_map (λ v. view v.now) found.entry)) }
{
    let values = entries_in(DirPlace::Realm(i), 32, found)?;
    trusts_of(alloc, i, values)
}

/// Reads the realms. They share the room for accounts, 100,000.
pub(crate) fn realms_of(alloc: Global, values: &[Value]) -> Result<Items<RealmRec>, DirRefusal>
    requires { length values.now ≤ 64 }
    ensures { Gives result (realms_of 0 100000 (items_view values.now)) }
{
    let mut realms = Items::new(alloc);
    let mut room = 100_000;
    let mut i = 0;
    for value in values {
        let realm = realm_of(alloc, i, room, value)?;
        room -= realm.accounts.len();
        i += 1;
        realms.push(realm)?;
    }
    Ok(realms)
}
