//! Reading what a PAC says (MS-PAC, sections 2.3 to 2.9).

ghost use Rattle.std.specs.Prelude.{◌≡◌, ◌<◌, ◌≤◌, ◌^◌, true, IfOk, IfSome, None, Result, length};
ghost use Rattle.std.specs.Option.{option_copied, ForSome};
ghost use Rattle.kdc_prelude.specs.Answers.{Answers};
ghost use Rattle.std.specs.Result.{result_ok};
ghost use Rattle.pac_buffers.specs.Container.{buffer_of, pac_fault};
ghost use Rattle.ticket_parts.specs.Records.{are_signatures_in, client_in, delegation_reading, has_names, is_signature_in, is_signature_or_absent, logon_in, pac_reading, value_in};

use crate::pac_values::PacValue;
use krb_names::is_name_text;
use ndr_core::LogonFault;
use pac_buffers::{ClientInfo, DelegationInfo, PacView, SignatureData};
use pac_logon::{LogonInfo, read_logon};
use std::alloc::{AllocError, Global};

/// A reading without its fault, where it is not want of memory.
fn or_nothing<T: Drop>(read: Result<T, LogonFault>) -> Result<Option<T>, AllocError>
    ensures value { (reading : Result T LogonFault) → Answers LogonFault.NoMemory read reading → IfOk result (λ found. found ≡ result_ok reading) }
    ensures found { IfOk result (λ found. found ≡ result_ok read) }
{
    match read {
        Ok(value) => Ok(Some(value)),
        Err(LogonFault::NoMemory) => Err(AllocError),
        Err(_) => Ok(None),
    }
}

/// The buffer of this type.
fn buffer<'a>(pac: &PacView<'a>, kind: u32) -> Option<&'a [u8]>
    requires { length pac.now < 2 ^ 32 }
    ensures exact { option_copied result ≡ buffer_of kind pac.now }
    ensures short { ForSome result (λ content. length content.now < 2 ^ 32) }
{
    pac.buffer(kind)
}

/// Whether the buffer of this type reads as a signature.
fn is_signature_in(alloc: Global, pac: &PacView, kind: u32) -> Result<bool, AllocError>
    requires { length pac.now < 2 ^ 32 }
    ensures { IfOk result (λ test. test ≡ is_signature_in pac.now kind) }
{
    match buffer(pac, kind) {
        None => Ok(false),
        Some(content) => Ok(or_nothing(SignatureData::read(alloc, content))?.is_some()),
    }
}

/// Whether there is no buffer of this type, or it reads as a signature.
fn is_signature_or_absent(alloc: Global, pac: &PacView, kind: u32) -> Result<bool, AllocError>
    requires { length pac.now < 2 ^ 32 }
    ensures { IfOk result (λ test. test ≡ is_signature_or_absent pac.now kind) }
{
    if pac.buffer(kind).is_none() {
        return Ok(true);
    }
    is_signature_in(alloc, pac, kind)
}

/// Whether the signatures that each PAC has read, and a ticket signature where it is there.
fn are_signatures_in(alloc: Global, pac: &PacView) -> Result<bool, AllocError>
    requires { length pac.now < 2 ^ 32 }
    ensures { IfOk result (λ test. test ≡ are_signatures_in pac.now) }
{
    let server = is_signature_in(alloc, pac, 6)?;
    let kdc = is_signature_in(alloc, pac, 7)?;
    let ticket = is_signature_or_absent(alloc, pac, 16)?;
    Ok(server && kdc && ticket)
}

/// The logon information.
fn logon_in(alloc: Global, pac: &PacView) -> Result<Option<LogonInfo>, AllocError>
    requires { length pac.now < 2 ^ 32 }
    ensures exact { IfOk result (λ found. found ≡ logon_in pac.now) }
    ensures few { IfOk result (λ found. IfSome found (λ info. length info.subject.domain_sid.numbers ≤ 14)) }
{
    match buffer(pac, 1) {
        None => Ok(None),
        Some(content) => or_nothing(read_logon(alloc, content)),
    }
}

/// The client information.
fn client_in(alloc: Global, pac: &PacView) -> Result<Option<ClientInfo>, AllocError>
    requires { length pac.now < 2 ^ 32 }
    ensures { IfOk result (λ found. found ≡ client_in pac.now) }
{
    match buffer(pac, 10) {
        None => Ok(None),
        Some(content) => or_nothing(ClientInfo::read(alloc, content)),
    }
}

/// The delegation information, where it is there.
fn delegation_in(alloc: Global, pac: &PacView) -> Result<Option<Option<DelegationInfo>>, AllocError>
    requires { length pac.now < 2 ^ 32 }
    ensures { IfOk result (λ found. found ≡ delegation_reading (buffer_of 11 pac.now)) }
{
    match buffer(pac, 11) {
        None => Ok(Some(None)),
        Some(content) => match or_nothing(DelegationInfo::read(alloc, content))? {
            None => Ok(None),
            Some(info) => Ok(Some(Some(info))),
        },
    }
}

fn value_in(alloc: Global, pac: &PacView) -> Result<Option<PacValue>, AllocError>
    requires { length pac.now < 2 ^ 32 }
    ensures exact { IfOk result (λ value. value ≡ value_in pac.now) }
    ensures few { IfOk result (λ found. IfSome found (λ value. length value.logon.subject.domain_sid.numbers ≤ 14)) }
{
    let Some(logon) = logon_in(alloc, pac)? else {
        return Ok(None);
    };
    let Some(client) = client_in(alloc, pac)? else {
        return Ok(None);
    };
    let Some(delegation) = delegation_in(alloc, pac)? else {
        return Ok(None);
    };
    Ok(Some(PacValue {
        logon,
        client,
        delegation,
    }))
}

/// Whether the effective name is one name, and the domain's name that of a realm.
fn has_names(value: &PacValue) -> bool
    ensures { result ≡ has_names value.now }
{
    is_name_text(value.logon.subject.name.as_str())
        && is_name_text(value.logon.subject.domain.as_str())
}

/// What a PAC whose container reads says: its logon information, client information and delegation information. None where one
/// of them or a signature does not read, the delegation information and the ticket signature where they are there, or a name
/// of the user is none.
pub fn read_pac(alloc: Global, pac: &PacView) -> Result<Option<PacValue>, AllocError>
    requires few { length pac.now < 2 ^ 32 }
    requires well { pac_fault pac.now ≡ None }
    ensures exact { IfOk result (λ found. found ≡ pac_reading pac.now) }
    ensures names { IfOk result (λ found. IfSome found (λ value. has_names value ≡ true)) }
    ensures few { IfOk result (λ found. IfSome found (λ value. length value.logon.subject.domain_sid.numbers ≤ 14)) }
{
    if !are_signatures_in(alloc, pac)? {
        return Ok(None);
    }
    match value_in(alloc, pac)? {
        Some(value) if has_names(&value) => Ok(Some(value)),
        _ => Ok(None),
    }
}
