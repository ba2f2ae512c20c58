//! The PAC of a ticket that is shown to a service (MS-PAC, section 2.8).

ghost use Rattle.std.specs.Prelude.{◌≡◌, ◌<◌, ◌≤◌, ◌^◌, IfNone, IfOk, IfSome, None, Some, length};
ghost use Rattle.kdc_prelude.specs.Answers.{Answers, or_fault};
ghost use Rattle.krb_tickets.specs.Pac.{pac_of};
ghost use Rattle.pac_buffers.specs.Container.{pac_fault};
ghost use Rattle.pac_sign.specs.Verified.{server_holds};
ghost use Rattle.service_end.specs.Readings.{pac_shown, signed_reading};

use krb_names::Key;
use krb_tickets::{EncTicketPart, pac_of};
use pac_buffers::PacView;
use pac_sign::verify;
use std::alloc::{AllocError, Global};
use ticket_parts::{PacValue, read_pac};

/// As many bytes are not read as a PAC (own limit).
const TOO_MANY_BYTES: usize = 0x1_0000_0000;

/// The PAC of a part, if its container reads.
fn pac_in(part: &EncTicketPart) -> Option<PacView<'_>>
    ensures found { IfSome result (λ pac. pac_of part.now ≡ Some pac) }
    ensures few { IfSome result (λ pac. length pac < 2 ^ 32) }
    ensures well { IfSome result (λ pac. pac_fault pac ≡ None) }
    ensures cause { IfNone result ((key : Key) → pac_shown key part.now ≡ None) }
{
    let bytes = pac_of(part)?;
    if bytes.len() >= TOO_MANY_BYTES {
        return None;
    }
    match PacView::read(bytes) {
        Ok(pac) => Some(pac),
        Err(_) => None,
    }
}

/// Whether the server signature is right.
fn is_signed(key: &Key, pac: &PacView) -> bool
    ensures { result ≡ server_holds key.now pac.now }
{
    verify(pac, key, None, None).is_ok()
}

/// What a PAC says whose server signature is right.
fn signed_reading(alloc: Global, key: &Key, pac: &PacView) -> Result<Option<PacValue>, AllocError>
    requires few { length pac.now < 2 ^ 32 }
    requires well { pac_fault pac.now ≡ None }
    ensures exact { IfOk result (λ found. found ≡ signed_reading key.now pac.now) }
    ensures few { IfOk result (λ found. IfSome found (λ value. length value.logon.subject.domain_sid.numbers ≤ 14)) }
{
    if is_signed(key, pac) {
        read_pac(alloc, pac)
    } else {
        Ok(None)
    }
}

/// What the PAC of a ticket says. None where there is none, it does not read, or its server signature is wrong.
#[tactic(auto, unfolding(crate::specs::Readings::pac_shown))]
pub(crate) fn read_shown_pac(
    alloc: Global,
    key: &Key,
    part: &EncTicketPart,
) -> Result<Option<PacValue>, AllocError>
    ensures exact { IfOk result (λ found. found ≡ pac_shown key.now part.now) }
    ensures few { IfOk result (λ found. IfSome found (λ value. length value.logon.subject.domain_sid.numbers ≤ 14)) }
{
    match pac_in(part) {
        Some(pac) => signed_reading(alloc, key, &pac),
        None => Ok(None),
    }
}
