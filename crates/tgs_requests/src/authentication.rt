//! The authenticator of a header (RFC 4120, sections 3.2.3, 3.3.2 and 5.5.1).
ghost use Rattle.std.specs.Prelude.{◌≡◌, ◌<◌, ◌≤◌, ◌^◌, IfOk, IfSome, MatchResult, None, Some, length, option_map, pos, slice_range};
ghost use Rattle.kdc_prelude.specs.Answers.{Answers};
ghost use Rattle.kdc_prelude.specs.Verdicts.{first_failing};
ghost use Rattle.krb_crypto.specs.Encryption.{opened};
ghost use Rattle.krb_messages.specs.Authenticator.{authenticator};
ghost use Rattle.pac_sign.specs.Sums.{sum_type};
ghost use Rattle.ticket_codec.specs.Denied.{denied};
ghost use Rattle.tgs_requests.specs.Headers.{authenticator_of_text, body_is_covered, client_is_the_tickets, is_mac, is_sum_type_of, sum_is_keyed};
ghost use Rattle.tgs_requests.specs.HeaderSteps.{auth_rules, authenticated};

use crate::padata::read_whole;
use kdc_records::{Rule, require};
use krb_crypto::{is_same_sum, mac, open_in_place};
use krb_messages::Authenticator;
use krb_names::{Etype, Key};
use krb_tickets::{EncTicketPart, EncryptedData};
use std::alloc::{AllocError, Global};
use std::ops::Range;
use ticket_codec::ShowFault;

/// The key usage of a TGS-REQ's authenticator (RFC 4120, section 7.5.1).
const AUTHENTICATOR_USAGE: u32 = 7;

/// The key usage of the checksum of a TGS-REQ's body (RFC 4120, section 7.5.1).
const BODY_USAGE: u32 = 6;

/// The type of a key's checksums: hmac-sha1-96-aes128, hmac-sha1-96-aes256 (RFC 3962, section 7).
fn sum_type(etype: Etype) -> i32
    ensures { result ≡ pos (sum_type etype) }
{
    match etype {
        Etype::Aes128 => 15,
        Etype::Aes256 => 16,
    }
}

/// Whether a number is the type of a key's checksums.
pub(crate) fn is_sum_type_of(key: &Key, number: i32) -> bool
    ensures { result ≡ is_sum_type_of key.now number }
{
    number == sum_type(key.etype)
}

/// Whether these octets are the checksum of a text.
pub(crate) fn is_mac(key: &Key, usage: u32, text: &[u8], sum: &[u8]) -> bool
    ensures { result ≡ is_mac key.now usage text.now sum.now }
{
    is_same_sum(&mac(key, usage, text), sum)
}

/// Opens an authenticator in place, and gives the range of what was sealed.
fn open_authenticator(key: &Key, bytes: &mut [u8]) -> Option<Range<usize>>
    ensures value { option_map (λ range. slice_range bytes.new range.start range.end) result ≡ opened key.now 7 bytes.old }
    ensures within { IfSome result (λ range. (range.start ≤ range.end) × (range.end ≤ length bytes.new)) }
    ensures size { length bytes.new ≡ length bytes.old }
{
    open_in_place(key, AUTHENTICATOR_USAGE, bytes)
}

/// The authenticator that a key opens, if it opens and reads.
fn read_authenticator(
    alloc: Global,
    key: &Key,
    cipher: &[u8],
) -> Result<Option<Authenticator>, AllocError>
    requires { length cipher.now < 2 ^ 32 }
    ensures value { IfOk result (λ found. found ≡ authenticator_of_text (opened key.now 7 cipher.now)) }
    ensures fits { IfOk result (λ found. IfSome found (λ auth. authenticator.Fits auth)) }
{
    let mut bytes = Vec::from_slice(alloc, cipher)?;
    let Some(range) = open_authenticator(key, bytes.as_mut_slice()) else {
        return Ok(None);
    };
    read_whole::<Authenticator>(alloc, &bytes.as_slice()[range])
}

/// G6: the authenticator's client is the ticket's.
fn client_is_the_tickets(part: &EncTicketPart, auth: &Authenticator) -> bool
    ensures { result ≡ client_is_the_tickets part.now auth.now }
{
    auth.cname.is_same(&part.client)
}

/// G7: the authenticator has a checksum of the session key's type.
fn sum_is_keyed(part: &EncTicketPart, auth: &Authenticator) -> bool
    ensures { result ≡ sum_is_keyed part.now auth.now }
{
    match &auth.cksum {
        Some(sum) => is_sum_type_of(&part.key, sum.cksumtype),
        None => false,
    }
}

/// G8: the checksum is that of the body as received.
fn body_is_covered(body: &[u8], part: &EncTicketPart, auth: &Authenticator) -> bool
    ensures { result ≡ body_is_covered body.now part.now auth.now }
{
    match &auth.cksum {
        Some(sum) => is_mac(&part.key, BODY_USAGE, body, sum.checksum.as_slice()),
        None => false,
    }
}

/// The first rule of an authenticator that fails.
fn check_authenticator(body: &[u8], part: &EncTicketPart, auth: &Authenticator) -> Result<(), Rule>
    ensures first { MatchResult result (λ done. first_failing (auth_rules body.now part.now auth.now) ≡ None) (λ rule. first_failing (auth_rules body.now part.now auth.now) ≡ Some rule) }
{
    require(Rule::G6, client_is_the_tickets(part, auth))?;
    require(Rule::G7, sum_is_keyed(part, auth))?;
    require(Rule::G8, body_is_covered(body, part, auth))
}

/// The authenticator that a ticket's session key opens, for a request whose body was received as these bytes.
///
/// # Errors
/// `Deny` with the first rule that fails: it does not open or read (`G5`), its client is not the ticket's (`G6`), it has no
/// checksum of the session key's type (`G7`), or that is not of the body (`G8`); `NoMemory`.
pub(crate) fn authenticate(
    alloc: Global,
    body: &[u8],
    part: &EncTicketPart,
    sealed: &EncryptedData,
) -> Result<Authenticator, ShowFault>
    requires { length sealed.now.cipher < 2 ^ 32 }
    ensures exact { Answers ShowFault.NoMemory result (denied (authenticated body.now part.now sealed.now)) }
    ensures fits { IfOk result (λ auth. authenticator.Fits auth) }
{
    let Some(auth) = read_authenticator(alloc, &part.key, sealed.cipher.as_slice())? else {
        return Err(ShowFault::Deny(Rule::G5));
    };
    match check_authenticator(body, part, &auth) {
        Ok(()) => Ok(auth),
        Err(rule) => Err(ShowFault::Deny(rule)),
    }
}
