//! Reading the record of a ticket that was opened.

ghost use Rattle.std.specs.Prelude.{◌≡◌, ◌+◌, ◌<◌, ◌^◌, IfNone, IfOk, IfSome, None, Some, length};
ghost use Rattle.kdc_prelude.specs.Answers.{Answers};
ghost use Rattle.krb_tickets.specs.EncTicketPart.{enc_ticket_part};
ghost use Rattle.krb_tickets.specs.Pac.{pac_of};
ghost use Rattle.kdc_records.specs.declared.holder.Holder.{Holder};
ghost use Rattle.pac_buffers.specs.Container.{pac_fault};
ghost use Rattle.ticket_laws.specs.Writable.{IsWritablePart};
ghost use Rattle.ticket_parts.specs.Records.{record_of};
ghost use Rattle.ticket_parts.specs.Sound.{IsSound};
ghost use Rattle.ticket_codec.specs.Denied.{denied};
ghost use Rattle.ticket_codec.specs.Presented.{are_right, certified, presented};

use crate::fault::ShowFault;
use crate::opening::Opened;
use crate::role::Role;
use dir_core::{Directory, RealmRec};
use kdc_records::{Holder, TicketRec};
use krb_tickets::{EncTicketPart, pac_of, part_without_pac};
use pac_buffers::PacView;
use pac_sign::verify;
use std::alloc::{AllocError, Global};
use ticket_parts::read_record;

/// As many bytes are not read as a PAC (own limit).
const TOO_MANY_BYTES: usize = 0x1_0000_0000;

/// A record whose signatures are right.
#[derive(Debug, Drop)]
pub struct Certified {
    pub rec: TicketRec,
    /// Whether the client information has the ticket's authtime and the name that it should have.
    pub agrees: bool,
}

/// The PAC of a part, if its container reads.
fn pac_in(part: &EncTicketPart) -> Option<PacView<'_>>
    ensures found { IfSome result (λ pac. pac_of part.now ≡ Some pac) }
    ensures few { IfSome result (λ pac. length pac < 2 ^ 32) }
    ensures well { IfSome result (λ pac. pac_fault pac ≡ None) }
    ensures cause { IfNone result ((holder : Holder) → record_of holder part.now ≡ None) }
{
    let bytes = pac_of(part)?;
    if bytes.len() >= TOO_MANY_BYTES {
        return None;
    }
    match PacView::read(bytes) {
        Ok(pac) => Some(pac),
        Err(_) => None,
    }
}

/// Whether the signatures of the PAC are right, at the realm that issued the ticket or that a cross-realm ticket is for.
fn are_right(
    alloc: Global,
    realm: &RealmRec,
    opened: &Opened,
    pac: &PacView,
) -> Result<bool, AllocError>
    requires fits { enc_ticket_part.Fits opened.now.part }
    requires short { length (enc_ticket_part.spelling opened.now.part) + 16 < 2 ^ 32 }
    ensures { IfOk result (λ right. right ≡ are_right realm.now opened.now pac.now) }
{
    let key = &realm.krbtgt.key;
    match &opened.holder {
        Holder::Krbtgt { .. } => Ok(verify(pac, &opened.key, Some(key), None).is_ok()),
        Holder::Trust { .. } => Ok(verify(pac, &opened.key, None, None).is_ok()),
        Holder::Account { .. } => {
            let part = part_without_pac(alloc, &opened.part)?;
            Ok(verify(pac, &opened.key, Some(key), Some(part.as_slice())).is_ok())
        }
    }
}

/// The record of a ticket that was opened at the realm at an index, where its PAC reads and has the right signatures: the
/// server signature under the key that opened it; of a local ticket the KDC signature under the key of the realm's
/// ticket-granting service; of a service ticket the ticket signature under that key. None where the PAC is not there or
/// does not read, or a signature is wrong. What was sealed has its own spelling in fewer than 2^32
/// bytes, by 16.
#[tactic(auto, unfolding(crate::specs::Presented::certified, crate::specs::Presented::are_signatures_right))]
pub fn certify(
    alloc: Global,
    dir: &Directory,
    realm: u32,
    opened: &Opened,
) -> Result<Option<Certified>, AllocError>
    requires realm { realm < length dir.now.realms }
    requires writable { IsWritablePart opened.now.part }
    requires short { length (enc_ticket_part.spelling opened.now.part) + 16 < 2 ^ 32 }
    ensures exact { IfOk result (λ found. found ≡ certified dir.now realm opened.now) }
    ensures sound { IfOk result (λ found. IfSome found (λ shown. IsSound shown.rec)) }
{
    let Some(pac) = pac_in(&opened.part) else {
        return Ok(None);
    };
    if !are_right(alloc, dir.realm(realm), opened, &pac)? {
        return Ok(None);
    }
    match read_record(alloc, &opened.holder, &opened.part, &pac)? {
        None => Ok(None),
        Some(read) => Ok(Some(Certified {
            rec: read.rec,
            agrees: read.agrees,
        })),
    }
}

/// The record of a ticket that was opened in a role at the realm at an index, as by `certify`.
///
/// # Errors
/// `Deny` of `G12`, of evidence `P5`, where the PAC is not there or does not read, or a signature is wrong; `NoMemory`.
#[tactic(auto, unfolding(crate::specs::Presented::presented))]
pub fn present(
    alloc: Global,
    dir: &Directory,
    realm: u32,
    role: Role,
    opened: &Opened,
) -> Result<Certified, ShowFault>
    requires realm { realm < length dir.now.realms }
    requires writable { IsWritablePart opened.now.part }
    requires short { length (enc_ticket_part.spelling opened.now.part) + 16 < 2 ^ 32 }
    ensures exact { Answers ShowFault.NoMemory result (denied (presented dir.now realm role opened.now)) }
    ensures sound { IfOk result (λ shown. IsSound shown.rec) }
{
    match certify(alloc, dir, realm, opened)? {
        Some(shown) => Ok(shown),
        None => Err(ShowFault::Deny(role.pac_rule())),
    }
}
