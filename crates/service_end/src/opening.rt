//! Opening an AP-REQ (RFC 4120, section 3.2.3).

ghost use Rattle.std.specs.Prelude.{◌≡◌, ◌<◌, ◌≤◌, ◌^◌, IfOk, IfSome, length, option_map, slice_range};
ghost use Rattle.kdc_prelude.specs.Answers.{Answers};
ghost use Rattle.der_core.specs.Codec.{whole};
ghost use Rattle.krb_crypto.specs.Encryption.{opened};
ghost use Rattle.krb_messages.specs.Authenticator.{authenticator};
ghost use Rattle.krb_tickets.specs.EncTicketPart.{enc_ticket_part};
ghost use Rattle.tgs_requests.specs.Askings.{read_or_none};
ghost use Rattle.tgs_requests.specs.Headers.{client_is_the_tickets};
ghost use Rattle.service_end.specs.Readings.{opened_as};
ghost use Rattle.service_end.specs.Shown.{asks_mutual, auth_shown, is_for_us, key_fits, part_shown, request_in, shown_in};

use crate::refusal::{AcceptRule, require};
use crate::service::ServiceKeys;
use crate::shown::Shown;
use der_forms::Form;
use kdc_records::has_bit;
use krb_crypto::open_in_place;
use krb_messages::{ApReq, Authenticator};
use krb_names::Key;
use krb_tickets::{EncTicketPart, EncryptedData, Ticket, TicketFault, read_message};
use std::alloc::{AllocError, Global};
use std::ops::Range;

/// The key usages of a ticket and of an AP-REQ's authenticator (RFC 4120, section 7.5.1).
const TICKET_USAGE: u32 = 2;

const AUTHENTICATOR_USAGE: u32 = 11;

/// mutual-required, a bit of APOptions (RFC 4120, section 5.5.1).
const MUTUAL_REQUIRED: u32 = 2;

/// The AP-REQ that bytes are.
pub(crate) fn read_request(alloc: Global, bytes: &[u8]) -> Result<ApReq, AcceptRule>
    requires { length bytes.now < 2 ^ 32 }
    ensures exact { Answers AcceptRule.NoMemory result (request_in bytes.now) }
    // What is sealed in it is shorter.
    ensures ticket { IfOk result (λ request. length request.ticket.sealed.cipher < 2 ^ 32) }
    ensures auth { IfOk result (λ request. length request.authenticator.cipher < 2 ^ 32) }
{
    match read_message::<ApReq>(alloc, bytes) {
        Ok(request) => Ok(request),
        Err(TicketFault::Malformed(fault)) => Err(AcceptRule::Malformed(fault.place)),
        Err(TicketFault::NoMemory) => Err(AcceptRule::NoMemory),
    }
}

/// Opens bytes in place, and gives the range of what was sealed.
fn open_range(key: &Key, usage: u32, bytes: &mut [u8]) -> Option<Range<usize>>
    ensures value { option_map (λ range. slice_range bytes.new range.start range.end) result ≡ opened key.now usage bytes.old }
    ensures within { IfSome result (λ range. (range.start ≤ range.end) × (range.end ≤ length bytes.new)) }
    ensures size { length bytes.new ≡ length bytes.old }
{
    open_in_place(key, usage, bytes)
}

/// The value that bytes are, if they are one.
fn read_value<T: Form>(alloc: Global, bytes: &[u8]) -> Result<Option<T>, AllocError>
    requires { length bytes.now < 2 ^ 32 }
    ensures value { IfOk result (λ found. found ≡ read_or_none (whole T.codec bytes.now)) }
    ensures fits { IfOk result (λ found. IfSome found (λ x. T.codec.Fits x)) }
{
    match read_message::<T>(alloc, bytes) {
        Ok(value) => Ok(Some(value)),
        Err(TicketFault::Malformed(_)) => Ok(None),
        Err(TicketFault::NoMemory) => Err(AllocError),
    }
}

/// The value that a key opens with a usage, if it opens and reads.
fn open_value<T: Form>(
    alloc: Global,
    key: &Key,
    usage: u32,
    cipher: &[u8],
) -> Result<Option<T>, AllocError>
    requires { length cipher.now < 2 ^ 32 }
    ensures value { IfOk result (λ found. found ≡ opened_as T.codec key.now usage cipher.now) }
    ensures fits { IfOk result (λ found. IfSome found (λ x. T.codec.Fits x)) }
{
    let mut bytes = Vec::from_slice(alloc, cipher)?;
    let Some(range) = open_range(key, usage, bytes.as_mut_slice()) else {
        return Ok(None);
    };
    read_value(alloc, &bytes.as_slice()[range])
}

/// NotUs: the ticket is of the service's realm.
fn is_for_us(keys: &ServiceKeys, ticket: &Ticket) -> bool
    ensures { result ≡ is_for_us keys.now ticket.now }
{
    ticket.realm == keys.account.realm
}

/// Version: the ticket is sealed with a key of the service's version and type.
fn key_fits(keys: &ServiceKeys, ticket: &Ticket) -> bool
    ensures { result ≡ key_fits keys.now ticket.now }
{
    let sealed = &ticket.sealed;
    sealed.kvno.unwrap_or(keys.version) == keys.version && sealed.etype == keys.key.etype.number()
}

/// What was sealed in a ticket for the service.
fn open_ticket(
    alloc: Global,
    keys: &ServiceKeys,
    ticket: &Ticket,
) -> Result<EncTicketPart, AcceptRule>
    requires { length ticket.now.sealed.cipher < 2 ^ 32 }
    ensures exact { Answers AcceptRule.NoMemory result (part_shown keys.now ticket.now) }
{
    require(AcceptRule::NotUs, is_for_us(keys, ticket))?;
    require(AcceptRule::Version, key_fits(keys, ticket))?;
    let cipher = ticket.sealed.cipher.as_slice();
    match open_value::<EncTicketPart>(alloc, &keys.key, TICKET_USAGE, cipher)? {
        Some(part) => Ok(part),
        None => Err(AcceptRule::Integrity),
    }
}

/// Match: the authenticator's client is the ticket's.
fn client_is_the_tickets(part: &EncTicketPart, auth: &Authenticator) -> bool
    ensures { result ≡ client_is_the_tickets part.now auth.now }
{
    auth.cname.is_same(&part.client)
}

/// The authenticator that the session key opens.
fn open_authenticator(
    alloc: Global,
    part: &EncTicketPart,
    sealed: &EncryptedData,
) -> Result<Authenticator, AcceptRule>
    requires { length sealed.now.cipher < 2 ^ 32 }
    ensures exact { Answers AcceptRule.NoMemory result (auth_shown part.now sealed.now) }
    ensures fits { IfOk result (λ auth. authenticator.Fits auth) }
{
    let cipher = sealed.cipher.as_slice();
    match open_value::<Authenticator>(alloc, &part.key, AUTHENTICATOR_USAGE, cipher)? {
        Some(auth) => {
            require(AcceptRule::Match, client_is_the_tickets(part, &auth))?;
            Ok(auth)
        }
        None => Err(AcceptRule::Integrity),
    }
}

/// Whether mutual authentication is asked for.
fn asks_mutual(request: &ApReq) -> bool
    ensures { result ≡ asks_mutual request.now }
{
    has_bit(request.ap_options, MUTUAL_REQUIRED)
}

/// What a request shows to the service.
#[tactic(auto, unfolding(crate::specs::Shown::shown_in))]
pub(crate) fn open_request(
    alloc: Global,
    keys: &ServiceKeys,
    request: &ApReq,
) -> Result<Shown, AcceptRule>
    requires ticket { length request.now.ticket.sealed.cipher < 2 ^ 32 }
    requires auth { length request.now.authenticator.cipher < 2 ^ 32 }
    ensures exact { Answers AcceptRule.NoMemory result (shown_in keys.now request.now) }
    ensures fits { IfOk result (λ shown. authenticator.Fits shown.auth) }
{
    let part = open_ticket(alloc, keys, &request.ticket)?;
    let auth = open_authenticator(alloc, &part, &request.authenticator)?;
    Ok(Shown {
        mutual_required: asks_mutual(request),
        part,
        auth,
    })
}
