//! The conditions and limits that the members of realms keep, each by itself.
ghost use Rattle.std.specs.Prelude.{◌≡◌, ◌≤◌, ◌+◌, IfNone, IfOk, length};
ghost use Rattle.kdc_prelude.specs.Verdicts.{first_failing};
ghost use Rattle.dir_records.specs.Members.{account_fault, accounts_refusal, identity_rows, list_rows, members_refusal, realm_refusal, realm_rows, realms_refusal, trust_rows, trusts_refusal};

use crate::forms::{are_names, are_services, is_account_name, is_key, is_positive};
use crate::limits::{
    MAX_ACCOUNTS, MAX_CLASSIC, MAX_DOMAIN_SUBS, MAX_GROUPS, MAX_LIFE, MAX_REACH, MAX_REALMS,
    MAX_RESOURCE, MAX_SALT, MAX_SPNS, MAX_TRUSTS,
};
use crate::records::{Account, RealmRec, Trust};
use crate::refusal::{DirCause, DirPlace, DirRefusal};
use krb_names::is_name_text;
use std::alloc::{AllocError, Global};

/// The first member of the realms that breaks a condition or a limit.
pub(crate) fn find_member_refusal(
    alloc: Global,
    realms: &[RealmRec],
) -> Result<Option<DirRefusal>, AllocError>
    ensures { IfOk result (λ refusal. refusal ≡ members_refusal realms.now) }
{
    if realms.is_empty() {
        return Ok(Some(DirRefusal {
            cause: DirCause::MissingField,
            place: DirPlace::Whole,
        }));
    }
    if realms.len() > MAX_REALMS {
        return Ok(Some(DirRefusal {
            cause: DirCause::TooMany,
            place: DirPlace::Whole,
        }));
    }
    find_realms_refusal(alloc, realms)
}

fn find_realms_refusal(alloc: Global, realms: &[RealmRec]) -> Result<Option<DirRefusal>, AllocError>
    requires { length realms.now ≤ 64 }
    ensures { IfOk result (λ refusal. refusal ≡ realms_refusal 0 0 realms.now) }
{
    let mut others = 0;
    for (at, realm) in realms.iter().enumerate() {
        if let Some(refusal) = find_realm_refusal(alloc, at as u32, others, realm)? {
            return Ok(Some(refusal));
        }
        others += realm.accounts.len();
    }
    Ok(None)
}

/// The first member of the realm at an index that breaks a condition or a limit, where other realms have so many accounts.
fn find_realm_refusal(
    alloc: Global,
    at: u32,
    others: usize,
    realm: &RealmRec,
) -> Result<Option<DirRefusal>, AllocError>
    requires { others ≤ 100000 }
    ensures value { IfOk result (λ refusal. refusal ≡ realm_refusal at others realm.now) }
    ensures few { IfOk result (λ refusal. IfNone refusal (others + length realm.now.accounts ≤ 100000)) }
{
    if let Some(cause) = find_realm_fault(others, realm) {
        return Ok(Some(DirRefusal {
            cause,
            place: DirPlace::Realm(at),
        }));
    }
    if let Some(refusal) = find_accounts_refusal(alloc, at, realm.accounts.as_slice())? {
        return Ok(Some(refusal));
    }
    if realm.trusts.len() > MAX_TRUSTS {
        return Ok(Some(DirRefusal {
            cause: DirCause::TooMany,
            place: DirPlace::Realm(at),
        }));
    }
    Ok(find_trusts_refusal(at, realm.trusts.as_slice()))
}

fn find_realm_fault(others: usize, realm: &RealmRec) -> Option<DirCause>
    requires { others ≤ 100000 }
    ensures value { result ≡ first_failing (realm_rows others realm.now) }
    ensures few { IfNone result (others + length realm.now.accounts ≤ 100000) }
{
    if !is_name_text(realm.name.as_str())
        || realm.sid.numbers().len() > MAX_DOMAIN_SUBS
        || !is_key(realm.krbtgt)
        || realm.max_life == 0
        || realm.max_life > MAX_LIFE
    {
        return Some(DirCause::BadField);
    }
    if realm.accounts.len() > MAX_ACCOUNTS - others {
        return Some(DirCause::TooMany);
    }
    None
}

fn find_accounts_refusal(
    alloc: Global,
    at: u32,
    accounts: &[Account],
) -> Result<Option<DirRefusal>, AllocError>
    requires { length accounts.now ≤ 100000 }
    ensures { IfOk result (λ refusal. refusal ≡ accounts_refusal at 1 accounts.now) }
{
    for (i, account) in accounts.iter().enumerate() {
        if let Some(cause) = find_account_fault(alloc, account)? {
            return Ok(Some(DirRefusal {
                cause,
                place: DirPlace::Account(at, i as u32 + 1),
            }));
        }
    }
    Ok(None)
}

fn find_account_fault(alloc: Global, account: &Account) -> Result<Option<DirCause>, AllocError>
    ensures { IfOk result (λ fault. fault ≡ account_fault account.now) }
{
    match find_identity_fault(account) {
        Some(cause) => Ok(Some(cause)),
        None => find_list_fault(alloc, account),
    }
}

fn find_identity_fault(account: &Account) -> Option<DirCause>
    ensures { result ≡ first_failing (identity_rows account.now) }
{
    if is_account_name(account.name.as_str())
        && is_positive(account.number)
        && is_key(account.key)
        && account.salt.len() <= MAX_SALT
    {
        None
    } else {
        Some(DirCause::BadField)
    }
}

fn find_list_fault(alloc: Global, account: &Account) -> Result<Option<DirCause>, AllocError>
    ensures { IfOk result (λ fault. fault ≡ first_failing (list_rows account.now)) }
{
    if account.spns.len() > MAX_SPNS {
        return Ok(Some(DirCause::TooMany));
    }
    if !are_services(alloc, account.spns.as_slice())? {
        return Ok(Some(DirCause::BadField));
    }
    if account.classic.len() > MAX_CLASSIC {
        return Ok(Some(DirCause::TooMany));
    }
    if !are_services(alloc, account.classic.as_slice())? {
        return Ok(Some(DirCause::BadField));
    }
    if account.resource.len() > MAX_RESOURCE || account.groups.len() > MAX_GROUPS {
        return Ok(Some(DirCause::TooMany));
    }
    Ok(None)
}

fn find_trusts_refusal(at: u32, trusts: &[Trust]) -> Option<DirRefusal>
    requires { length trusts.now ≤ 32 }
    ensures { result ≡ trusts_refusal at 1 trusts.now }
{
    for (i, trust) in trusts.iter().enumerate() {
        if let Some(cause) = find_trust_fault(trust) {
            return Some(DirRefusal {
                cause,
                place: DirPlace::Trust(at, i as u32 + 1),
            });
        }
    }
    None
}

fn find_trust_fault(trust: &Trust) -> Option<DirCause>
    ensures { result ≡ first_failing (trust_rows trust.now) }
{
    if !is_name_text(trust.partner.as_str()) || !is_key(trust.key) {
        return Some(DirCause::BadField);
    }
    if trust.reach.len() > MAX_REACH {
        return Some(DirCause::TooMany);
    }
    if !are_names(trust.reach.as_slice()) {
        return Some(DirCause::BadField);
    }
    None
}
