//! An account as tickets and replies tell it.
ghost use Rattle.std.specs.Prelude.{◌≡◌, ◌≤◌, IfOk, if◌then◌else◌, length};
ghost use Rattle.dir_records.specs.IsDirectory.{IsAccount, IsAccountInRange};
ghost use Rattle.tgs_core.specs.Grants.{control_of, principal_of_account, subject_of_account};
ghost use Rattle.tgs_core.specs.Replies.{key_entry, key_info};

use der_forms::write;
use dir_core::{Account, RealmRec};
use kdc_records::Subject;
use krb_messages::{EtypeInfo2, EtypeInfo2Entry, PaData};
use krb_names::{Items, Principal, TryClone};
use std::alloc::{AllocError, Global};

/// USER_NORMAL_ACCOUNT (MS-PAC, section 2.5).
const NORMAL_ACCOUNT: u32 = 0x10;

/// USER_ACCOUNT_DISABLED
const ACCOUNT_DISABLED: u32 = 0x1;

/// USER_NOT_DELEGATED
const NOT_DELEGATED: u32 = 0x4000;

/// USER_TRUSTED_TO_AUTHENTICATE_FOR_DELEGATION
const TRUSTED_TO_AUTHENTICATE_FOR_DELEGATION: u32 = 0x40000;

/// PA-ETYPE-INFO2 (RFC 4120, section 5.2.7.5).
const PA_ETYPE_INFO2: i32 = 19;

/// The bit, where it is to be set.
fn mark_if(mark: u32, set: bool) -> u32
    ensures value { result ≡ (if set then mark else 0) }
    ensures few { result ≤ mark }
{
    if set { mark } else { 0 }
}

/// UserAccountControl of an account.
fn control_of(account: &Account) -> u32
    ensures { result ≡ control_of account.now }
{
    NORMAL_ACCOUNT
        + mark_if(ACCOUNT_DISABLED, account.disabled)
        + mark_if(NOT_DELEGATED, account.not_delegated)
        + mark_if(
            TRUSTED_TO_AUTHENTICATE_FOR_DELEGATION,
            account.trusted_to_auth,
        )
}

/// The user of an account of the realm.
pub(crate) fn subject_of_account(
    alloc: Global,
    realm: &RealmRec,
    account: &Account,
) -> Result<Subject, AllocError>
    requires { length realm.now.sid.numbers ≤ 14 }
    ensures { IfOk result (λ made. made ≡ subject_of_account realm.now account.now) }
{
    Ok(Subject {
        name: account.name.try_clone(alloc)?,
        realm: realm.name.try_clone(alloc)?,
        sid: realm.sid.followed_by(account.number),
        control: control_of(account),
        groups: account.groups.try_clone(alloc)?,
    })
}

/// Its principal, of kind 1 (NT-PRINCIPAL) and one part.
pub(crate) fn principal_of_account(
    alloc: Global,
    realm: &RealmRec,
    account: &Account,
) -> Result<Principal, AllocError>
    ensures { IfOk result (λ made. made ≡ principal_of_account realm.now account.now) }
{
    let mut parts = Items::new(alloc);
    parts.push(account.name.try_clone(alloc)?)?;
    Ok(Principal {
        kind: 1,
        parts,
        realm: realm.name.try_clone(alloc)?,
    })
}

/// The type and the salt of an account's key.
fn key_entry(alloc: Global, account: &Account) -> Result<EtypeInfo2Entry, AllocError>
    ensures { IfOk result (λ entry. entry ≡ key_entry account.now) }
{
    Ok(EtypeInfo2Entry {
        etype: account.key.key.etype.number(),
        salt: Some(account.salt.try_clone(alloc)?),
        s2kparams: None,
    })
}

/// PA-ETYPE-INFO2 of an account's key.
pub(crate) fn key_info(alloc: Global, account: &Account) -> Result<PaData, AllocError>
    requires account { IsAccount account.now }
    requires range { IsAccountInRange account.now }
    ensures { IfOk result (λ item. item ≡ key_info account.now) }
{
    let mut entries: EtypeInfo2 = Items::new(alloc);
    entries.push(key_entry(alloc, account)?)?;
    Ok(PaData {
        padata_type: PA_ETYPE_INFO2,
        padata_value: write(alloc, &entries)?,
    })
}
