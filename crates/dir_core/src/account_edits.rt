//! Accounts after a change.
ghost use Rattle.std.specs.Prelude.{◌≡◌, ◌++◌, IfOk, OnOk, filter, map, not};
ghost use Rattle.kdc_prelude.specs.Texts.{same_text};
ghost use Rattle.dir_records.specs.Changes.{named_account};
ghost use Rattle.dir_core.specs.Edits.{account_after, accounts_after, edited_account, is_named, marked, new_account, without};

use dir_records::{Account, Change, Entry, KeyRec, Mark};
use krb_names::{Items, Spn, Text, TryClone};
use std::alloc::{AllocError, Global};

/// The accounts of the realm that is changed, after the change.
pub(crate) fn accounts_after(
    alloc: Global,
    change: &Change,
    accounts: &[Account],
) -> Result<Items<Account>, AllocError>
    ensures { IfOk result (λ after. after ≡ accounts_after change.now accounts.now) }
{
    match change {
        Change::AddAccount(realm, name, number, key) => {
            let account = new_account(alloc, realm, name, *number, *key)?;
            let mut all = Items::copy(alloc, accounts)?;
            all.push(account)?;
            Ok(all)
        }
        Change::RemoveAccount(_, name) => without_account(alloc, name.as_str(), accounts),
        _ => edited_accounts(alloc, change, accounts),
    }
}

fn new_account(
    alloc: Global,
    realm: &Text,
    name: &Text,
    number: u32,
    key: KeyRec,
) -> Result<Account, AllocError>
    ensures { IfOk result (λ account. account ≡ new_account realm.now name.now number key) }
{
    Ok(Account {
        name: name.try_clone(alloc)?,
        number,
        key,
        salt: joined(alloc, realm.as_str(), name.as_str())?,
        spns: Items::new(alloc),
        disabled: false,
        not_delegated: false,
        trusted_to_auth: false,
        preauth: true,
        classic: Items::new(alloc),
        resource: Items::new(alloc),
        groups: Items::new(alloc),
    })
}

fn joined(alloc: Global, front: &str, back: &str) -> Result<Text, AllocError>
    ensures { IfOk result (λ text. text ≡ front.now ++ back.now) }
{
    let mut text = String::from_str(alloc, front)?;
    text.push_str(back)?;
    Ok(Text::from_string(text))
}

fn without_account(
    alloc: Global,
    name: &str,
    accounts: &[Account],
) -> Result<Items<Account>, AllocError>
    ensures { IfOk result (λ kept. kept ≡ filter (λ account. not (same_text account.name name.now)) accounts.now) }
{
    let mut kept = Items::new(alloc);
    for account in accounts {
        if account.name.as_str() != name {
            kept.push(account.try_clone(alloc)?)?;
        }
    }
    Ok(kept)
}

fn edited_accounts(
    alloc: Global,
    change: &Change,
    accounts: &[Account],
) -> Result<Items<Account>, AllocError>
    ensures { IfOk result (λ after. after ≡ map (account_after change.now) accounts.now) }
{
    let mut after = Items::new(alloc);
    for account in accounts {
        after.push(account_after(alloc, change, account)?)?;
    }
    Ok(after)
}

fn account_after(alloc: Global, change: &Change, account: &Account) -> Result<Account, AllocError>
    ensures { IfOk result (λ after. after ≡ account_after change.now account.now) }
{
    let mut after = account.try_clone(alloc)?;
    if is_changed(change, account) {
        edit_account(alloc, change, &mut after)?;
        Ok(after)
    } else {
        Ok(after)
    }
}

/// Whether the change is made to this account.
fn is_changed(change: &Change, account: &Account) -> bool
    ensures { result ≡ is_named (named_account change.now) account.now.name }
{
    match change.account() {
        Some(name) => account.name.as_str() == name,
        None => false,
    }
}

fn edit_account(alloc: Global, change: &Change, account: &mut Account) -> Result<(), AllocError>
    ensures { OnOk result (account.new ≡ edited_account change.now account.old) }
{
    match change {
        Change::SetMark(_, _, mark, on) => set_mark(account, *mark, *on),
        Change::SetKey(_, _, key) => account.key = *key,
        Change::AddSpn(_, _, spn) => account.spns.push(text_of(alloc, spn)?)?,
        Change::RemoveSpn(_, _, spn) => {
            account.spns = without(alloc, &text_of(alloc, spn)?, account.spns.as_slice())?
        }
        Change::AddClassic(_, _, spn) => account.classic.push(text_of(alloc, spn)?)?,
        Change::RemoveClassic(_, _, spn) => {
            account.classic = without(alloc, &text_of(alloc, spn)?, account.classic.as_slice())?
        }
        Change::AddResource(_, _, sid) => account.resource.push(*sid)?,
        Change::RemoveResource(_, _, sid) => {
            account.resource = without(alloc, sid, account.resource.as_slice())?
        }
        Change::AddGroup(_, _, number) => account.groups.push(*number)?,
        Change::RemoveGroup(_, _, number) => {
            account.groups = without(alloc, number, account.groups.as_slice())?
        }
        _ => {}
    }
    Ok(())
}

fn text_of(alloc: Global, spn: &Spn) -> Result<Text, AllocError>
    ensures { IfOk result (λ text. text ≡ spn.now) }
{
    Text::copy(alloc, spn.as_str())
}

fn set_mark(account: &mut Account, mark: Mark, on: bool)
    ensures { account.new ≡ marked mark on account.old }
{
    match mark {
        Mark::Disabled => account.disabled = on,
        Mark::NotDelegated => account.not_delegated = on,
        Mark::TrustedToAuth => account.trusted_to_auth = on,
        Mark::Preauth => account.preauth = on,
    }
}

/// The entries but those that are the same as one.
pub(crate) fn without<T: Entry + TryClone>(
    alloc: Global,
    entry: &T,
    entries: &[T],
) -> Result<Items<T>, AllocError>
    ensures { IfOk result (λ kept. kept ≡ without T.same entry.now entries.now) }
{
    let mut kept = Items::new(alloc);
    for other in entries {
        if !other.is_same(entry) {
            kept.push(other.try_clone(alloc)?)?;
        }
    }
    Ok(kept)
}
