//! The keys and numbers that are spent after a change.
ghost use Rattle.std.specs.Prelude.{◌≡◌, ◌++◌, IfOk, OnOk, option_and_then};
ghost use Rattle.std.specs.Option.{option_copied, option_to_list};
ghost use Rattle.dir_core.specs.Edits.{key_taken, number_taken};

use dir_records::{Account, Change, KeyRec, SpentNumber};
use krb_names::{Items, TryClone};
use std::alloc::{AllocError, Global};

/// Adds the key that the change takes away from the account that it is made to.
pub(crate) fn spend_key(
    change: &Change,
    account: Option<&Account>,
    spent: &mut Items<KeyRec>,
) -> Result<(), AllocError>
    ensures { OnOk result (spent.new ≡ spent.old ++ option_to_list (option_and_then (key_taken change.now) (option_copied account.entry))) }
{
    match account {
        Some(account) => match key_taken(change, account) {
            Some(key) => spent.push(key),
            None => Ok(()),
        },
        None => Ok(()),
    }
}

fn key_taken(change: &Change, account: &Account) -> Option<KeyRec>
    ensures { result ≡ key_taken change.now account.now }
{
    match change {
        Change::RemoveAccount(_, _) => Some(account.key),
        Change::SetKey(_, _, key) => {
            if account.key.key.bytes() == key.key.bytes() {
                None
            } else {
                Some(account.key)
            }
        }
        _ => None,
    }
}

/// Adds the number that the change takes away from that account.
pub(crate) fn spend_number(
    alloc: Global,
    change: &Change,
    account: Option<&Account>,
    spent: &mut Items<SpentNumber>,
) -> Result<(), AllocError>
    ensures { OnOk result (spent.new ≡ spent.old ++ option_to_list (option_and_then (number_taken change.now) (option_copied account.entry))) }
{
    match (change, account) {
        (Change::RemoveAccount(realm, _), Some(account)) => spent.push(SpentNumber {
            realm: realm.try_clone(alloc)?,
            number: account.number,
        }),
        _ => Ok(()),
    }
}
