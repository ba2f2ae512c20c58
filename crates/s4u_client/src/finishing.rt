//! A reply becomes a credential (RFC 4120, sections 3.1.5, 3.3.4 and 5.4.2).
ghost use Rattle.std.specs.Prelude.{◌≡◌, ◌≤◌, ◌<◌, ◌^◌, IfErr, IfOk, IfSome, length, option_map, slice_range, unwrap_or, []};
ghost use Rattle.kdc_prelude.specs.Answers.{Answers};
ghost use Rattle.der_core.specs.Codec.{whole};
ghost use Rattle.der_forms.specs.Choices.{tag_in};
ghost use Rattle.der_forms.specs.Fields.{begins};
ghost use Rattle.krb_crypto.specs.Encryption.{opened};
ghost use Rattle.krb_messages.specs.EncKdcRep.{enc_kdc_rep};
ghost use Rattle.krb_messages.specs.KrbError.{krb_error};
ghost use Rattle.s4u_client.specs.Finishing.{IsFound, IsReply, TextsDiffer, awaits_as, cred_of, finished, not_denied, part_in, part_of, readable, reply_in};
ghost use Rattle.s4u_client.specs.Writable.{IsCred, IsName, IsWant};

use crate::compare::compare;
use crate::cred::{Cred, Pending};
use crate::fault::FinishFault;
use der_forms::Form;
use krb_crypto::open_in_place;
use krb_messages::{EncKdcRep, KdcRep, KrbError};
use krb_names::Text;
use krb_tickets::{TicketFault, read_message};
use std::alloc::{AllocError, Global};
use std::ops::Range;

/// The usage of the key that opens the part of an AS-REP (RFC 4120, section 7.5.1).
const AS_REP_PART: u32 = 3;

/// The tag byte of EncASRepPart (RFC 4120, section 5.4.2).
const ENC_AS_REP_PART: u8 = 0x79;

/// The tag byte of AS-REP, or of TGS-REP (RFC 4120, section 5.4.2).
fn tag_in(is_as: bool) -> u8
    ensures { result ≡ tag_in 0x6b 0x6d is_as }
{
    if is_as { 0x6b } else { 0x6d }
}

/// Whether bytes begin with a tag.
fn begins(tag: u8, bytes: &[u8]) -> bool
    ensures { result ≡ begins tag bytes.now }
{
    match bytes {
        [first, ..] => *first == tag,
        [] => false,
    }
}

/// The text of an error, empty where it is absent.
fn text_or_empty(alloc: Global, text: Option<Text>) -> Result<Text, AllocError>
    ensures { IfOk result (λ found. found ≡ unwrap_or text []) }
{
    match text {
        Some(text) => Ok(text),
        None => Text::copy(alloc, ""),
    }
}

/// A KRB-ERROR denies.
fn not_denied(alloc: Global, bytes: &[u8]) -> Result<(), FinishFault>
    requires { length bytes.now < 2 ^ 32 }
    ensures { Answers FinishFault.NoMemory result (not_denied (whole krb_error bytes.now)) }
{
    match read_message::<KrbError>(alloc, bytes) {
        Ok(error) => Err(FinishFault::Denied(
            error.error_code,
            text_or_empty(alloc, error.e_text)?,
        )),
        Err(TicketFault::Malformed(_)) => Ok(()),
        Err(TicketFault::NoMemory) => Err(FinishFault::NoMemory),
    }
}

/// The message that the bytes are.
fn readable<T: Form>(alloc: Global, bytes: &[u8]) -> Result<T, FinishFault>
    requires { length bytes.now < 2 ^ 32 }
    ensures exact { Answers FinishFault.NoMemory result (readable (whole T.codec bytes.now)) }
    ensures found { IfOk result (λ x. T.codec.IsDer bytes.now x) }
    ensures fits { IfOk result (λ x. T.codec.Fits x) }
{
    match read_message::<T>(alloc, bytes) {
        Ok(value) => Ok(value),
        Err(TicketFault::Malformed(malformed)) => Err(FinishFault::Unreadable(malformed.place)),
        Err(TicketFault::NoMemory) => Err(FinishFault::NoMemory),
    }
}

/// Whether the reply to an AS-REQ is awaited.
fn awaits_as(pending: &Pending) -> bool
    ensures { result ≡ awaits_as pending.now }
{
    pending.usage == AS_REP_PART
}

/// The reply of the kind that was asked for.
fn reply_in(alloc: Global, pending: &Pending, bytes: &[u8]) -> Result<KdcRep, FinishFault>
    requires { length bytes.now < 2 ^ 32 }
    ensures exact { Answers FinishFault.NoMemory result (reply_in (awaits_as pending.now) bytes.now) }
    ensures found { IfOk result (IsReply bytes.now) }
{
    if !begins(tag_in(awaits_as(pending)), bytes) {
        return Err(FinishFault::Unreadable(0));
    }
    readable::<KdcRep>(alloc, bytes)
}

/// What was sealed in a reply of that kind.
fn part_in(alloc: Global, is_as: bool, bytes: &[u8]) -> Result<EncKdcRep, FinishFault>
    requires { length bytes.now < 2 ^ 32 }
    ensures exact { Answers FinishFault.NoMemory result (part_in is_as bytes.now) }
    ensures fits { IfOk result enc_kdc_rep.Fits }
{
    if !is_as && begins(ENC_AS_REP_PART, bytes) {
        return Err(FinishFault::Unreadable(0));
    }
    readable::<EncKdcRep>(alloc, bytes)
}

/// Opens the part of a reply in place, and gives the range of what was sealed.
fn open_part(pending: &Pending, bytes: &mut [u8]) -> Option<Range<usize>>
    ensures value { option_map (λ range. slice_range bytes.new range.start range.end) result ≡ opened pending.now.key pending.now.usage bytes.old }
    ensures within { IfSome result (λ range. (range.start ≤ range.end) × (range.end ≤ length bytes.new)) }
    ensures size { length bytes.new ≡ length bytes.old }
{
    open_in_place(&pending.key, pending.usage, bytes)
}

/// The part of a reply that the key opens.
fn part_of(alloc: Global, pending: &Pending, reply: &KdcRep) -> Result<EncKdcRep, FinishFault>
    requires { length reply.now.enc_part.cipher < 2 ^ 32 }
    ensures exact { Answers FinishFault.NoMemory result (part_of pending.now reply.now) }
    ensures fits { IfOk result enc_kdc_rep.Fits }
{
    let mut bytes = Vec::from_slice(alloc, reply.enc_part.cipher.as_slice())?;
    let Some(range) = open_part(pending, bytes.as_mut_slice()) else {
        return Err(FinishFault::NotOpened);
    };
    part_in(alloc, awaits_as(pending), &bytes.as_slice()[range])
}

/// The credential that a reply and its part give.
fn cred_of(reply: KdcRep, part: EncKdcRep) -> Cred
    ensures { result ≡ cred_of reply part }
{
    Cred {
        client: reply.cname,
        server: part.sname,
        ticket: reply.ticket,
        session: part.key,
        flags: part.flags,
        end: part.endtime,
    }
}

/// The credential that a reply gives, where it is what was asked for.
///
/// # Errors
/// The first of: `Denied` by a KRB-ERROR; `Unreadable`, where it is not a reply of the kind that was asked for; `NotOpened`
/// by the key; `Unreadable`, where what was sealed is no part of such a reply; `Differs` in the nonce, the client, the
/// server, the ticket's server or the etype. And `NoMemory`.
pub fn finish(alloc: Global, pending: &Pending, reply: &[u8]) -> Result<Cred, FinishFault>
    requires { length reply.now < 2 ^ 32 }
    ensures exact { Answers FinishFault.NoMemory result (finished pending.now reply.now) }
    // The credential can be used in a request.
    ensures found { IfOk result (IsFound reply.now) }
    ensures cred { length reply.now ≤ 2 ^ 27 → IfOk result IsCred }
    // The two texts of a difference differ, for what a request keeps.
    ensures cause { IsName pending.now.client → IsWant pending.now.want → IfErr result TextsDiffer }
{
    not_denied(alloc, reply)?;
    let message = reply_in(alloc, pending, reply)?;
    let part = part_of(alloc, pending, &message)?;
    compare(alloc, pending, &message, &part)?;
    Ok(cred_of(message, part))
}
