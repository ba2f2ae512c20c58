//! What may stand only once in a realm or in the directory, each with its place.
ghost use Rattle.std.specs.Prelude.{◌≡◌, ◌<◌, ◌≤◌, ◌^◌, ◌++◌, All, IfOk, OnOk, length, map};
ghost use Rattle.krb_names.specs.Keys.{key_bytes};
ghost use Rattle.dir_records.specs.Marks.{account_marks, key_marks, marks_of, name_marks, now_of, number_marks, partner_marks, spent_key_marks, spent_number_marks, spn_marks, trust_marks};
ghost use Rattle.dir_records.specs.Clashes.{realm_names};

use crate::records::{Account, KeyRec, RealmRec, SpentNumber, Trust};
use crate::refusal::DirPlace;
use std::alloc::{AllocError, Global};

/// The names of the accounts of the realm at an index.
pub(crate) fn name_marks(
    alloc: Global,
    at: u32,
    realm: &RealmRec,
) -> Result<Vec<(DirPlace, &[u8])>, AllocError>
    requires { length realm.now.accounts < 2 ^ 32 }
    ensures { IfOk result (λ marks. map now_of marks.items ≡ name_marks at realm.now) }
{
    let mut marks = Vec::new(alloc);
    for (i, account) in realm.accounts.as_slice().iter().enumerate() {
        marks.push((
            DirPlace::Account(at, i as u32 + 1),
            account.name.as_str().as_bytes(),
        ))?;
    }
    Ok(marks)
}

/// Their numbers, behind those that are spent in the realm.
pub(crate) fn number_marks(
    alloc: Global,
    spent: &[SpentNumber],
    at: u32,
    realm: &RealmRec,
) -> Result<Vec<(DirPlace, u32)>, AllocError>
    requires { length realm.now.accounts < 2 ^ 32 }
    ensures { IfOk result (λ marks. marks.items ≡ spent_number_marks spent.now realm.now ++ number_marks at realm.now) }
{
    let mut marks = spent_number_marks(alloc, spent, realm)?;
    for (i, account) in realm.accounts.as_slice().iter().enumerate() {
        marks.push((DirPlace::Account(at, i as u32 + 1), account.number))?;
    }
    Ok(marks)
}

fn spent_number_marks(
    alloc: Global,
    spent: &[SpentNumber],
    realm: &RealmRec,
) -> Result<Vec<(DirPlace, u32)>, AllocError>
    ensures { IfOk result (λ marks. marks.items ≡ spent_number_marks spent.now realm.now) }
{
    let mut marks = Vec::new(alloc);
    for taken in spent {
        if taken.realm.as_str() == realm.name.as_str() {
            marks.push((DirPlace::Whole, taken.number))?;
        }
    }
    Ok(marks)
}

/// The partners of its trusts.
pub(crate) fn partner_marks(
    alloc: Global,
    at: u32,
    realm: &RealmRec,
) -> Result<Vec<(DirPlace, &[u8])>, AllocError>
    requires { length realm.now.trusts ≤ 32 }
    ensures { IfOk result (λ marks. map now_of marks.items ≡ partner_marks at realm.now) }
{
    let mut marks = Vec::new(alloc);
    for (i, trust) in realm.trusts.as_slice().iter().enumerate() {
        marks.push((
            DirPlace::Trust(at, i as u32 + 1),
            trust.partner.as_str().as_bytes(),
        ))?;
    }
    Ok(marks)
}

/// The names of the realms.
pub(crate) fn realm_names(
    alloc: Global,
    realms: &[RealmRec],
) -> Result<Vec<(DirPlace, &[u8])>, AllocError>
    requires { length realms.now ≤ 64 }
    ensures { IfOk result (λ marks. map now_of marks.items ≡ realm_names 0 realms.now) }
{
    let mut marks = Vec::new(alloc);
    for (at, realm) in realms.iter().enumerate() {
        marks.push((DirPlace::Realm(at as u32), realm.name.as_str().as_bytes()))?;
    }
    Ok(marks)
}

/// The service principal names of the accounts of all realms.
pub(crate) fn spn_marks(
    alloc: Global,
    realms: &[RealmRec],
) -> Result<Vec<(DirPlace, &[u8])>, AllocError>
    requires few { length realms.now ≤ 64 }
    requires accounts { All (λ realm. length realm.accounts < 2 ^ 32) realms.now }
    ensures { IfOk result (λ marks. map now_of marks.items ≡ marks_of spn_marks realms.now) }
{
    let mut marks = Vec::new(alloc);
    for (at, realm) in realms.iter().enumerate() {
        push_spn_marks(&mut marks, at as u32, realm)?;
    }
    Ok(marks)
}

fn push_spn_marks<'a>(
    marks: &mut Vec<(DirPlace, &'a [u8])>,
    at: u32,
    realm: &'a RealmRec,
) -> Result<(), AllocError>
    requires { length realm.now.accounts < 2 ^ 32 }
    ensures { OnOk result (map now_of marks.new.items ≡ map now_of marks.old.items ++ spn_marks at realm.now) }
{
    for (i, account) in realm.accounts.as_slice().iter().enumerate() {
        push_spns(marks, DirPlace::Account(at, i as u32 + 1), account)?;
    }
    Ok(())
}

fn push_spns<'a>(
    marks: &mut Vec<(DirPlace, &'a [u8])>,
    place: DirPlace,
    account: &'a Account,
) -> Result<(), AllocError>
    ensures { OnOk result (map now_of marks.new.items ≡ map now_of marks.old.items ++ map (λ spn. (place, spn)) account.now.spns) }
{
    for spn in account.spns.as_slice() {
        marks.push((place, spn.as_str().as_bytes()))?;
    }
    Ok(())
}

/// The octets of the keys of all realms, behind those that are spent.
pub(crate) fn key_marks<'a>(
    alloc: Global,
    spent: &'a [KeyRec],
    realms: &'a [RealmRec],
) -> Result<Vec<(DirPlace, &'a [u8])>, AllocError>
    requires few { length realms.now ≤ 64 }
    requires accounts { All (λ realm. length realm.accounts < 2 ^ 32) realms.now }
    requires trusts { All (λ realm. length realm.trusts ≤ 32) realms.now }
    ensures { IfOk result (λ marks. map now_of marks.items ≡ spent_key_marks spent.now ++ marks_of key_marks realms.now) }
{
    let mut marks = spent_key_marks(alloc, spent)?;
    for (at, realm) in realms.iter().enumerate() {
        push_key_marks(&mut marks, at as u32, realm)?;
    }
    Ok(marks)
}

fn spent_key_marks(alloc: Global, spent: &[KeyRec]) -> Result<Vec<(DirPlace, &[u8])>, AllocError>
    ensures { IfOk result (λ marks. map now_of marks.items ≡ spent_key_marks spent.now) }
{
    let mut marks = Vec::new(alloc);
    for key in spent {
        marks.push((DirPlace::Whole, key.key.bytes()))?;
    }
    Ok(marks)
}

fn push_key_marks<'a>(
    marks: &mut Vec<(DirPlace, &'a [u8])>,
    at: u32,
    realm: &'a RealmRec,
) -> Result<(), AllocError>
    requires accounts { length realm.now.accounts < 2 ^ 32 }
    requires trusts { length realm.now.trusts ≤ 32 }
    ensures { OnOk result (map now_of marks.new.items ≡ map now_of marks.old.items ++ key_marks at realm.now) }
{
    marks.push((DirPlace::Realm(at), realm.krbtgt.key.bytes()))?;
    push_account_keys(marks, at, realm.accounts.as_slice())?;
    push_trust_keys(marks, at, realm.trusts.as_slice())
}

fn push_account_keys<'a>(
    marks: &mut Vec<(DirPlace, &'a [u8])>,
    at: u32,
    accounts: &'a [Account],
) -> Result<(), AllocError>
    requires { length accounts.now < 2 ^ 32 }
    ensures { OnOk result (map now_of marks.new.items ≡ map now_of marks.old.items ++ account_marks (λ account. key_bytes account.key.key) at 1 accounts.now) }
{
    for (i, account) in accounts.iter().enumerate() {
        marks.push((DirPlace::Account(at, i as u32 + 1), account.key.key.bytes()))?;
    }
    Ok(())
}

fn push_trust_keys<'a>(
    marks: &mut Vec<(DirPlace, &'a [u8])>,
    at: u32,
    trusts: &'a [Trust],
) -> Result<(), AllocError>
    requires { length trusts.now ≤ 32 }
    ensures { OnOk result (map now_of marks.new.items ≡ map now_of marks.old.items ++ trust_marks (λ trust. key_bytes trust.key.key) at 1 trusts.now) }
{
    for (i, trust) in trusts.iter().enumerate() {
        marks.push((DirPlace::Trust(at, i as u32 + 1), trust.key.key.bytes()))?;
    }
    Ok(())
}
