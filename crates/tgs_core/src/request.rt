//! A request as it is read, and the rules of a request by itself (RFC 4120, sections 5.4.1 and 3.1.3).
ghost use Rattle.std.specs.Prelude.{◌≡◌, ◌<◌, ◌≤◌, ◌^◌, IfOk, IfSome, MatchResult, None, Some, length, true};
ghost use Rattle.std.specs.Option.{option_copied};
ghost use Rattle.kdc_prelude.specs.Verdicts.{first_failing};
ghost use Rattle.dir_core.specs.Lookups.{realm_named};
ghost use Rattle.tgs_core.specs.Received.{IsReceived};
ghost use Rattle.tgs_core.specs.Requests.{is_tagged, is_version_5, is_within_limit, message_in, opening_rules, realm_is_known};

use crate::random::bytes_fit;
use dir_core::Directory;
use kdc_records::{Rule, require};
use krb_messages::KdcReq;
use krb_tickets::{TicketFault, read_message};
use std::alloc::{AllocError, Global};

/// As many bytes as a request may have.
const LONGEST_REQUEST: usize = 131_072;

/// The tag of an AS-REQ.
const AS_REQ: u8 = 0x6a;

/// The tag of a TGS-REQ.
const TGS_REQ: u8 = 0x6c;

/// U1: it has at most 131,072 bytes.
fn is_within_limit(bytes: &[u8]) -> bool
    ensures { result ≡ is_within_limit bytes.now }
{
    bytes.len() <= LONGEST_REQUEST
}

/// U2: its first byte is the tag of an AS-REQ or a TGS-REQ.
fn is_tagged(bytes: &[u8]) -> bool
    ensures { result ≡ is_tagged bytes.now }
{
    match bytes {
        [first, ..] => *first == AS_REQ || *first == TGS_REQ,
        [] => false,
    }
}

/// U4: pvno is 5.
fn is_version_5(message: &KdcReq) -> bool
    ensures { result ≡ is_version_5 message.now }
{
    message.pvno == 5
}

/// U5: the realm that is asked is in the directory.
pub(crate) fn realm_is_known(dir: &Directory, message: &KdcReq) -> bool
    ensures { result ≡ realm_is_known dir.now message.now }
{
    dir.realm_by_name(message.req_body.realm.as_str()).is_some()
}

/// The message that bytes are, of at most as many as a request may have.
fn read_short(alloc: Global, bytes: &[u8]) -> Result<Option<KdcReq>, AllocError>
    requires { is_within_limit bytes.now ≡ true }
    ensures value { IfOk result (λ message. message ≡ message_in bytes.now) }
    ensures received { IfOk result (λ message. IfSome message IsReceived) }
{
    bytes_fit(bytes);
    match read_message::<KdcReq>(alloc, bytes) {
        Ok(message) => Ok(Some(message)),
        Err(TicketFault::Malformed(_)) => Ok(None),
        Err(TicketFault::NoMemory) => Err(AllocError),
    }
}

/// The message that bytes are; one that is too long is not read.
pub(crate) fn read_request(alloc: Global, bytes: &[u8]) -> Result<Option<KdcReq>, AllocError>
    ensures value { IfOk result (λ message. message ≡ message_in bytes.now) }
    ensures received { IfOk result (λ message. IfSome message IsReceived) }
{
    if is_within_limit(bytes) {
        read_short(alloc, bytes)
    } else {
        Ok(None)
    }
}

/// The index of the realm that is asked, or the first of the rules of a request by itself that fails.
pub(crate) fn open_request(
    dir: &Directory,
    bytes: &[u8],
    message: Option<&KdcReq>,
) -> Result<u32, Rule>
    requires { option_copied message ≡ message_in bytes.now }
    ensures first { MatchResult result (λ realm. first_failing (opening_rules dir.now bytes.now) ≡ None) (λ rule. first_failing (opening_rules dir.now bytes.now) ≡ Some rule) }
    ensures found { IfOk result (λ realm. IfSome (option_copied message.entry) (λ read. realm_named dir.now read.req_body.realm ≡ Some realm)) }
    ensures within { IfOk result (λ realm. realm < length dir.now.realms) }
{
    require(Rule::U1, is_within_limit(bytes))?;
    require(Rule::U2, is_tagged(bytes))?;
    let Some(message) = message else {
        return Err(Rule::U3);
    };
    require(Rule::U4, is_version_5(message))?;
    match dir.realm_by_name(message.req_body.realm.as_str()) {
        Some(realm) => Ok(realm),
        None => Err(Rule::U5),
    }
}
