//! Padata of S4U requests (MS-SFU, sections 2.2.1 and 2.2.2; MS-KILE, section 2.2.10).
ghost use Rattle.std.specs.Prelude.{◌≡◌, ◌≤◌, IfOk, length, pos};
ghost use Rattle.s4u_padata.specs.ForUser.{for_user};
ghost use Rattle.s4u_padata.specs.PacOptions.{pac_options};
ghost use Rattle.s4u_padata.specs.UserId.{user_id};
ghost use Rattle.s4u_padata.specs.X509User.{x509_user};
ghost use Rattle.s4u_client.specs.Requests.{for_user_of, rbcd_options, user_id_of, x509_user_of};
ghost use Rattle.s4u_client.specs.Writable.{IsName, IsShortItem, IsWant};

use crate::cred::Want;
use crate::parts::sum_type;
use der_forms::write;
use kdc_records::bit_if;
use krb_crypto::{mac, rc4_mac};
use krb_messages::PaData;
use krb_names::{Bytes, Items, Key, Principal, Text, TryClone};
use s4u_padata::{ForUser, PacOptions, UserId, X509User, for_user_bytes};
use std::alloc::{AllocError, Global};

/// Padata-types (MS-SFU, sections 2.2.1 and 2.2.2; MS-KILE, section 2.2.10).
const PA_FOR_USER: i32 = 129;

const PA_S4U_X509_USER: i32 = 130;

const PA_PAC_OPTIONS: i32 = 167;

/// The key usage of the checksum of PA-FOR-USER, KERB_NON_KERB_CKSUM_SALT (MS-SFU, section 2.2.1).
const FOR_USER_USAGE: u32 = 17;

/// The key usage of the checksum of PA-S4U-X509-USER (MS-SFU, section 2.2.2).
const X509_USER_USAGE: u32 = 26;

/// The type of a keyed checksum of RC4 (RFC 4757, section 4).
const HMAC_MD5: i32 = -138;

/// The auth-package of PA-FOR-USER (MS-SFU, section 2.2.1).
const KERBEROS: &str = "Kerberos";

/// The option of PA-PAC-OPTIONS for resource-based constrained delegation, a bit.
const RBCD: u32 = 3;

/// The user-id of PA-S4U-X509-USER.
fn user_id_of(alloc: Global, want: &Want, user: &Principal) -> Result<UserId, AllocError>
    ensures { IfOk result (λ made. made ≡ user_id_of want.now user.now) }
{
    Ok(UserId {
        nonce: want.nonce,
        user: Some(user.try_clone(alloc)?),
        realm: user.realm.try_clone(alloc)?,
        options: 0,
    })
}

/// Its bytes.
#[tactic(auto, using(crate::proofs::UserForms::user_id_fits, crate::proofs::UserForms::user_id_short))]
fn user_id_bytes(alloc: Global, want: &Want, user: &Principal) -> Result<Bytes, AllocError>
    requires want { IsWant want.now }
    requires user { IsName user.now }
    ensures ok { IfOk result (λ bytes. bytes ≡ user_id.spelling (user_id_of want.now user.now)) }
    ensures short { IfOk result (λ bytes. length bytes ≤ 3000) }
{
    let id = user_id_of(alloc, want, user)?;
    write(alloc, &id)
}

/// PA-S4U-X509-USER.
fn x509_user_of(
    alloc: Global,
    want: &Want,
    user: &Principal,
    subkey: &Key,
) -> Result<X509User, AllocError>
    requires want { IsWant want.now }
    requires user { IsName user.now }
    ensures { IfOk result (λ made. made ≡ x509_user_of want.now user.now subkey.now) }
{
    let id_bytes = user_id_bytes(alloc, want, user)?;
    let sum = Items::copy(alloc, &mac(subkey, X509_USER_USAGE, id_bytes.as_slice()))?;
    Ok(X509User {
        nonce: want.nonce,
        user: Some(user.try_clone(alloc)?),
        realm: user.realm.try_clone(alloc)?,
        options: 0,
        id_bytes,
        sum_type: sum_type(subkey.etype),
        sum,
    })
}

/// The padata of it.
#[tactic(auto, using(crate::proofs::UserForms::x509_user_fits, crate::proofs::UserForms::x509_user_short))]
pub(crate) fn x509_user_item(
    alloc: Global,
    want: &Want,
    user: &Principal,
    subkey: &Key,
) -> Result<PaData, AllocError>
    requires want { IsWant want.now }
    requires user { IsName user.now }
    ensures value { IfOk result (λ item. item ≡ record { padata_type = pos 130; padata_value = x509_user.spelling (x509_user_of want.now user.now subkey.now) }) }
    ensures short { IfOk result IsShortItem }
{
    let made = x509_user_of(alloc, want, user, subkey)?;
    Ok(PaData {
        padata_type: PA_S4U_X509_USER,
        padata_value: write(alloc, &made)?,
    })
}

/// PA-FOR-USER.
fn for_user_of(alloc: Global, user: &Principal, session: &Key) -> Result<ForUser, AllocError>
    ensures value { IfOk result (λ made. made ≡ for_user_of user.now session.now) }
    ensures short { IfOk result (λ made. length made.sum ≤ 16) }
{
    let covered = for_user_bytes(alloc, user, KERBEROS)?;
    let sum = rc4_mac(session.bytes(), FOR_USER_USAGE, covered.as_slice());
    Ok(ForUser {
        user: user.try_clone(alloc)?,
        sum_type: HMAC_MD5,
        sum: Items::copy(alloc, &sum)?,
        package: Text::copy(alloc, KERBEROS)?,
    })
}

/// The padata of it.
#[tactic(auto, using(crate::proofs::UserForms::for_user_fits, crate::proofs::UserForms::for_user_short))]
pub(crate) fn for_user_item(
    alloc: Global,
    user: &Principal,
    session: &Key,
) -> Result<PaData, AllocError>
    requires { IsName user.now }
    ensures value { IfOk result (λ item. item ≡ record { padata_type = pos 129; padata_value = for_user.spelling (for_user_of user.now session.now) }) }
    ensures short { IfOk result IsShortItem }
{
    let made = for_user_of(alloc, user, session)?;
    Ok(PaData {
        padata_type: PA_FOR_USER,
        padata_value: write(alloc, &made)?,
    })
}

/// The padata that asks for resource-based constrained delegation.
#[tactic(auto, using(crate::proofs::UserForms::options_fit, crate::proofs::UserForms::options_short))]
pub(crate) fn rbcd_item(alloc: Global) -> Result<PaData, AllocError>
    ensures value { IfOk result (λ item. item ≡ record { padata_type = pos 167; padata_value = pac_options.spelling rbcd_options }) }
    ensures short { IfOk result IsShortItem }
{
    let options = PacOptions {
        flags: bit_if(RBCD, true),
    };
    Ok(PaData {
        padata_type: PA_PAC_OPTIONS,
        padata_value: write(alloc, &options)?,
    })
}
