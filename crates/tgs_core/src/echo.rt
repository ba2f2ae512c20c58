//! PA-S4U-X509-USER of a reply (MS-SFU, section 2.2.2).
ghost use Rattle.std.specs.Prelude.{◌≡◌, IfOk, pos};
ghost use Rattle.std.specs.Option.{option_copied};
ghost use Rattle.pac_sign.specs.Sums.{sum_type};
ghost use Rattle.tgs_core.specs.Grants.{IsEchoable};
ghost use Rattle.tgs_core.specs.Replies.{echo, echo_padata, echo_usage};

use der_forms::write;
use kdc_records::has_bit;
use krb_crypto::mac;
use krb_messages::PaData;
use krb_names::{Bytes, Etype, Items, Key, Principal, TryClone};
use s4u_padata::X509User;
use std::alloc::{AllocError, Global};

/// PA-S4U-X509-USER, a padata-type (MS-SFU, section 2.2.2).
const PA_S4U_X509_USER: i32 = 130;

/// The option of a user-id by which the reply's checksum has a usage of its own, 0x20000000 (MS-SFU, section 2.2.2).
const USE_REPLY_KEY_USAGE: u32 = 2;

/// The key usages of the checksum of a request, and of a reply where that option is set (MS-SFU, section 2.2.2).
const REQUEST_USAGE: u32 = 26;

const REPLY_USAGE: u32 = 27;

/// The type of a key's checksums (RFC 3962, section 7).
fn sum_type(key: &Key) -> i32
    ensures { result ≡ pos (sum_type key.now.etype) }
{
    match key.etype {
        Etype::Aes128 => 15,
        Etype::Aes256 => 16,
    }
}

/// The usage of the checksum of an echo.
fn echo_usage(asked: &X509User) -> u32
    ensures { result ≡ echo_usage asked.now }
{
    if has_bit(asked.options, USE_REPLY_KEY_USAGE) {
        REPLY_USAGE
    } else {
        REQUEST_USAGE
    }
}

/// The checksum of an echo, over the user-id as received.
fn echo_sum(alloc: Global, key: &Key, asked: &X509User) -> Result<Bytes, AllocError>
    ensures { IfOk result (λ sum. sum ≡ (echo key.now asked.now).sum) }
{
    let sum = mac(key, echo_usage(asked), asked.id_bytes.as_slice());
    Items::copy(alloc, &sum)
}

fn copy_name(alloc: Global, name: Option<&Principal>) -> Result<Option<Principal>, AllocError>
    ensures { IfOk result (λ copied. copied ≡ option_copied name.entry) }
{
    match name {
        Some(name) => Ok(Some(name.try_clone(alloc)?)),
        None => Ok(None),
    }
}

/// The same user-id, as received, with a new checksum under a key.
fn echo(alloc: Global, key: &Key, asked: &X509User) -> Result<X509User, AllocError>
    ensures { IfOk result (λ made. made ≡ echo key.now asked.now) }
{
    Ok(X509User {
        nonce: asked.nonce,
        user: copy_name(alloc, asked.user.as_ref())?,
        realm: asked.realm.try_clone(alloc)?,
        options: asked.options,
        id_bytes: asked.id_bytes.try_clone(alloc)?,
        sum_type: sum_type(key),
        sum: echo_sum(alloc, key, asked)?,
    })
}

/// The padata that echo those of a request.
pub(crate) fn echo_padata(alloc: Global, key: &Key, asked: &X509User) -> Result<PaData, AllocError>
    requires { IsEchoable asked.now }
    ensures { IfOk result (λ item. item ≡ echo_padata key.now asked.now) }
{
    let made = echo(alloc, key, asked)?;
    Ok(PaData {
        padata_type: PA_S4U_X509_USER,
        padata_value: write(alloc, &made)?,
    })
}
