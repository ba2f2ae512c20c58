//! Opening a ticket that is shown.

ghost use Rattle.std.specs.Prelude.{◌≡◌, ◌<◌, ◌≤◌, ◌+◌, ◌^◌, IfOk, IfSome, length, option_map, slice_range};
ghost use Rattle.kdc_prelude.specs.Answers.{Answers};
ghost use Rattle.der_core.specs.Codec.{whole};
ghost use Rattle.krb_crypto.specs.Encryption.{opened};
ghost use Rattle.krb_tickets.specs.EncTicketPart.{enc_ticket_part};
ghost use Rattle.ticket_laws.specs.Writable.{IsWritablePart};
ghost use Rattle.ticket_codec.specs.Denied.{denied, unless_unopened};
ghost use Rattle.ticket_codec.specs.Opening.{is_for_key, opened_by, part_in, part_read, unsealed};

use crate::bytes::bytes_fit;
use crate::fault::{OpenFault, ShowFault, Unopened};
use crate::holder::find_holding;
use crate::holding::Holding;
use crate::role::Role;
use dir_core::{Directory, KeyRec};
use kdc_records::Holder;
use krb_crypto::open_in_place;
use krb_names::Key;
use krb_tickets::{EncTicketPart, EncryptedData, Ticket, TicketFault, read_part};
use std::alloc::{AllocError, Global};
use std::ops::Range;

/// The key usage of a ticket (RFC 4120, section 7.5.1).
pub(crate) const TICKET_USAGE: u32 = 2;

/// A ticket that was opened.
#[derive(Debug, Drop)]
pub struct Opened {
    /// What was sealed.
    pub part: EncTicketPart,
    /// For whom.
    pub holder: Holder,
    /// The key that opened it.
    pub key: Key,
}

/// Whether it is sealed with a key of this version and type.
fn is_for_key(key: &KeyRec, sealed: &EncryptedData) -> bool
    ensures { result ≡ is_for_key key.now sealed.now }
{
    sealed.kvno.unwrap_or(key.version) == key.version && sealed.etype == key.key.etype.number()
}

/// The part that a text is, if it is one.
fn read_text(alloc: Global, text: &[u8]) -> Result<Option<EncTicketPart>, AllocError>
    requires { length text.now < 2 ^ 32 }
    ensures value { IfOk result (λ found. found ≡ part_read (whole enc_ticket_part text.now)) }
    ensures writable { IfOk result (λ found. IfSome found (λ part. IsWritablePart part)) }
    ensures short { IfOk result (λ found. IfSome found (λ part. length (enc_ticket_part.spelling part) ≤ length text.now + 8)) }
{
    bytes_fit(text);
    match read_part(alloc, text) {
        Ok(part) => Ok(Some(part)),
        Err(TicketFault::Malformed(_)) => Ok(None),
        Err(TicketFault::NoMemory) => Err(AllocError),
    }
}

/// Opens the bytes in place, and gives the range of what was sealed.
fn open_ticket(key: &Key, bytes: &mut [u8]) -> Option<Range<usize>>
    ensures value { option_map (λ range. slice_range bytes.new range.start range.end) result ≡ opened key.now 2 bytes.old }
    ensures within { IfSome result (λ range. (range.start ≤ range.end) × (range.end ≤ length bytes.new)) }
    // A confounder stands before it, and a checksum behind.
    ensures size { IfSome result (λ range. range.end + 28 ≡ range.start + length bytes.new) }
{
    open_in_place(key, TICKET_USAGE, bytes)
}

/// The part that a key opens, if it opens and reads.
fn part_in(alloc: Global, key: &Key, cipher: &[u8]) -> Result<Option<EncTicketPart>, AllocError>
    requires { length cipher.now < 2 ^ 32 }
    ensures value { IfOk result (λ found. found ≡ part_in key.now cipher.now) }
    ensures writable { IfOk result (λ found. IfSome found (λ part. IsWritablePart part)) }
    ensures short { IfOk result (λ found. IfSome found (λ part. length (enc_ticket_part.spelling part) + 20 ≤ length cipher.now)) }
{
    let mut bytes = Vec::from_slice(alloc, cipher)?;
    let Some(range) = open_ticket(key, bytes.as_mut_slice()) else {
        return Ok(None);
    };
    read_text(alloc, &bytes.as_slice()[range])
}

/// Opens a ticket with the key of the one for whom it is sealed.
///
/// # Errors
/// `Unopened` with what fails first: the key's version or type is not the ticket's, or the ticket does not open or what
/// was sealed does not read; `NoMemory`.
pub fn open_held(alloc: Global, ticket: &Ticket, held: Holding) -> Result<Opened, OpenFault>
    requires { length ticket.now.sealed.cipher < 2 ^ 32 }
    ensures exact { Answers OpenFault.NoMemory result (unless_unopened (opened_by ticket.now held)) }
    ensures writable { IfOk result (λ opened. IsWritablePart opened.part) }
    ensures short { IfOk result (λ opened. length (enc_ticket_part.spelling opened.part) + 20 ≤ length ticket.now.sealed.cipher) }
{
    if !is_for_key(&held.key, &ticket.sealed) {
        return Err(OpenFault::Unopened(Unopened::WrongKey));
    }
    let key = held.key.key;
    match part_in(alloc, &key, ticket.sealed.cipher.as_slice())? {
        None => Err(OpenFault::Unopened(Unopened::Unreadable)),
        Some(part) => Ok(Opened {
            part,
            holder: held.holder,
            key,
        }),
    }
}

/// Opens a ticket that is shown in a role at the realm at an index: with the key of the realm's ticket-granting service, of
/// the issuing realm's trust in this realm, or of the account at an index of the realm's list, whose evidence it is.
///
/// # Errors
/// `Deny` with the first rule that fails: the ticket is not for that realm or account (`G2`, of evidence `P2`), its key
/// version or type is not that key's (`G3`, `P3`), it does not open or what was sealed does not read (`G4`, `P4`);
/// `NoMemory`.
#[tactic(auto, unfolding(crate::specs::Opening::unsealed))]
pub fn unseal(
    alloc: Global,
    dir: &Directory,
    realm: u32,
    role: Role,
    ticket: &Ticket,
) -> Result<Opened, ShowFault>
    requires realm { realm < length dir.now.realms }
    requires few { length ticket.now.sealed.cipher < 2 ^ 32 }
    ensures exact { Answers ShowFault.NoMemory result (denied (unsealed dir.now realm role ticket.now)) }
    // What was sealed can be written, in fewer bytes than the cipher has.
    ensures writable { IfOk result (λ opened. IsWritablePart opened.part) }
    ensures short { IfOk result (λ opened. length (enc_ticket_part.spelling opened.part) + 20 ≤ length ticket.now.sealed.cipher) }
{
    let Some(held) = find_holding(alloc, dir, realm, role, ticket)? else {
        return Err(ShowFault::Deny(role.name_rule()));
    };
    match open_held(alloc, ticket, held) {
        Ok(opened) => Ok(opened),
        Err(OpenFault::Unopened(unopened)) => Err(ShowFault::Deny(role.unopened_rule(unopened))),
        Err(OpenFault::NoMemory) => Err(ShowFault::NoMemory),
    }
}
