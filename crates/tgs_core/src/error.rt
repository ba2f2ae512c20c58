//! The reply to a request that is denied (RFC 4120, sections 3.1.4 and 5.9.1).
ghost use Rattle.std.specs.Prelude.{◌≡◌, ◌≤◌, IfOk, IfSome, length};
ghost use Rattle.std.specs.Option.{option_copied};
ghost use Rattle.der_forms.specs.Lists.{sequence_of};
ghost use Rattle.krb_messages.specs.KrbError.{krb_error};
ghost use Rattle.krb_messages.specs.PaData.{pa_data};
ghost use Rattle.dir_records.specs.IsDirectory.{IsAccount, IsAccountInRange};
ghost use Rattle.tgs_core.specs.Errors.{account_asking, error_bytes, error_data, error_of, error_realm, error_server, error_with, first_realm, krbtgt_of, methods_for, methods_of, server_asked};
ghost use Rattle.tgs_core.specs.Received.{IsReceived};

use crate::account::key_info;
use crate::request::realm_is_known;
use as_core::client_account;
use der_forms::write;
use dir_core::{Account, Directory};
use kdc_records::Rule;
use krb_messages::{KdcReq, KrbError, PaData, PaItems};
use krb_names::{Bytes, Items, KTime, Moment, Principal, Realm, Text, TryClone};
use std::alloc::{AllocError, Global};

/// NT-SRV-INST (RFC 4120, section 6.2).
const NT_SRV_INST: i32 = 2;

/// PA-ENC-TIMESTAMP (RFC 4120, section 7.5.2).
const PA_ENC_TIMESTAMP: i32 = 2;

/// The directory's first realm.
#[tactic(auto, using(crate::proofs::Askers::some_realm))]
fn first_realm(dir: &Directory) -> &Realm
    ensures { result.now ≡ first_realm dir.now }
{
    dir.keeps_directory();
    &dir.realm(0).name
}

/// The realm that answers: the one that is asked, where the request reads and the directory has it, or the directory's
/// first.
fn error_realm<'a>(dir: &'a Directory, message: Option<&'a KdcReq>) -> &'a Realm
    ensures { result.now ≡ error_realm dir.now (option_copied message.entry) }
{
    match message {
        Some(message) => {
            if realm_is_known(dir, message) {
                &message.req_body.realm
            } else {
                first_realm(dir)
            }
        }
        None => first_realm(dir),
    }
}

/// Krbtgt of a realm.
fn krbtgt_of(alloc: Global, realm: &Realm) -> Result<Principal, AllocError>
    ensures { IfOk result (λ name. name ≡ krbtgt_of realm.now) }
{
    let mut parts = Items::new(alloc);
    parts.push(Text::copy(alloc, "krbtgt")?)?;
    parts.push(Text::copy(alloc, realm.as_str())?)?;
    Ok(Principal {
        kind: NT_SRV_INST,
        parts,
        realm: realm.try_clone(alloc)?,
    })
}

/// The server of a realm's error: the one that is asked for, or the realm's krbtgt.
fn error_server(
    alloc: Global,
    realm: &Realm,
    server: Option<&Principal>,
) -> Result<Principal, AllocError>
    ensures { IfOk result (λ name. name ≡ error_server realm.now (option_copied server.entry)) }
{
    match server {
        Some(server) => Ok(Principal {
            kind: server.kind,
            parts: server.parts.try_clone(alloc)?,
            realm: realm.try_clone(alloc)?,
        }),
        None => krbtgt_of(alloc, realm),
    }
}

/// The server that a request asks for, where it reads.
fn server_asked(message: Option<&KdcReq>) -> Option<&Principal>
    ensures { option_copied result ≡ server_asked (option_copied message.entry) }
{
    match message {
        Some(message) => message.req_body.sname.as_ref(),
        None => None,
    }
}

/// The account that an AS-REQ's client is.
fn account_asking<'a>(dir: &'a Directory, message: Option<&KdcReq>) -> Option<&'a Account>
    ensures { option_copied result ≡ account_asking dir.now (option_copied message.entry) }
{
    let message = message?;
    match dir.realm_by_name(message.req_body.realm.as_str()) {
        Some(realm) => client_account(dir, realm, message.req_body.cname.as_ref()),
        None => None,
    }
}

/// METHOD-DATA of an account that has to pre-authenticate: its key's type and salt, and that a timestamp is wanted.
fn methods_of(alloc: Global, account: &Account) -> Result<PaItems, AllocError>
    requires account { IsAccount account.now }
    requires range { IsAccountInRange account.now }
    ensures { IfOk result (λ items. items ≡ methods_of account.now) }
{
    let mut items = Items::new(alloc);
    items.push(key_info(alloc, account)?)?;
    items.push(PaData {
        padata_type: PA_ENC_TIMESTAMP,
        padata_value: Items::new(alloc),
    })?;
    Ok(items)
}

/// Its bytes.
#[tactic(auto, using(crate::proofs::ErrorForms::methods_fit, crate::proofs::ErrorForms::methods_short))]
fn method_bytes(alloc: Global, account: &Account) -> Result<Bytes, AllocError>
    requires account { IsAccount account.now }
    requires range { IsAccountInRange account.now }
    ensures { IfOk result (λ bytes. bytes ≡ (sequence_of pa_data).spelling (methods_of account.now)) }
{
    let items = methods_of(alloc, account)?;
    write(alloc, &items)
}

/// E-data: of a want of pre-authentication alone.
fn error_data(
    alloc: Global,
    dir: &Directory,
    message: Option<&KdcReq>,
    rule: Rule,
) -> Result<Option<Bytes>, AllocError>
    ensures { IfOk result (λ bytes. bytes ≡ error_data dir.now (option_copied message.entry) rule) }
{
    if rule != Rule::A7 {
        return Ok(None);
    }
    dir.keeps_directory();
    match account_asking(dir, message) {
        Some(account) => Ok(Some(method_bytes(alloc, account)?)),
        None => Ok(None),
    }
}

/// The error of a rule, to the message that was read, if one was.
#[tactic(auto, unfolding(crate::specs::Errors::error_of))]
fn error_of(
    alloc: Global,
    dir: &Directory,
    now: Moment,
    message: Option<&KdcReq>,
    rule: Rule,
) -> Result<KrbError, AllocError>
    ensures { IfOk result (λ error. error ≡ error_of dir.now now (option_copied message.entry) rule) }
{
    let realm = error_realm(dir, message);
    Ok(KrbError {
        pvno: 5,
        msg_type: 30,
        ctime: None,
        cusec: None,
        stime: KTime::new(now.secs),
        susec: now.micros as i32,
        error_code: rule.code(),
        crealm: None,
        cname: None,
        sname: error_server(alloc, realm, server_asked(message))?,
        realm: realm.try_clone(alloc)?,
        e_text: Some(Text::copy(alloc, rule.name())?),
        e_data: error_data(alloc, dir, message, rule)?,
    })
}

/// The bytes of an error.
fn write_error(alloc: Global, error: &KrbError) -> Result<Bytes, AllocError>
    requires fits { krb_error.Fits error.now }
    requires short { length (krb_error.spelling error.now) ≤ 8192 }
    ensures value { IfOk result (λ bytes. bytes ≡ krb_error.spelling error.now) }
    ensures short { IfOk result (λ bytes. length bytes ≤ 8192) }
{
    write(alloc, error)
}

/// The bytes of the error of a rule, to the message that was read, if one was: at most 8,192.
pub(crate) fn error_bytes(
    alloc: Global,
    dir: &Directory,
    now: Moment,
    message: Option<&KdcReq>,
    rule: Rule,
) -> Result<Bytes, AllocError>
    requires { IfSome (option_copied message) IsReceived }
    ensures value { IfOk result (λ bytes. bytes ≡ error_bytes dir.now now (option_copied message.entry) rule) }
    ensures short { IfOk result (λ bytes. length bytes ≤ 8192) }
{
    dir.keeps_directory();
    let error = error_of(alloc, dir, now, message, rule)?;
    write_error(alloc, &error)
}
