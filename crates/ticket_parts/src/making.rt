//! Making the part that is sealed in a ticket.

ghost use Rattle.std.specs.Prelude.{◌≡◌, ◌<◌, ◌^◌, [], ◌∷◌, IfOk, IfSome, length, option_map, pos};
ghost use Rattle.krb_tickets.specs.EncTicketPart.{enc_ticket_part};
ghost use Rattle.ndr_core.specs.Object.{packed_spelling, spelling};
ghost use Rattle.pac_buffers.specs.Client.{client};
ghost use Rattle.pac_buffers.specs.Delegation.{delegation};
ghost use Rattle.pac_laws.specs.Writable.{IsWritableDelegation};
ghost use Rattle.pac_logon.specs.Logon.{logon};
ghost use Rattle.pac_sign.specs.Sums.{sum_type};
ghost use Rattle.ticket_laws.specs.OnlyPac.{only_pac};
ghost use Rattle.ticket_parts.specs.Parts.{client_of, delegation_of, is_service, logon_of, part, part_with, signed_part, unsigned_pac};
ghost use Rattle.ticket_parts.specs.Sound.{IsSound};

use crate::pac_values::{client_of, delegation_of, logon_of};
use der_forms::write;
use kdc_records::{Delegation, Holder, TicketRec};
use krb_names::{Bytes, Etype, Items, Key, TryClone};
use krb_tickets::{AuthItem, AuthItems, EncTicketPart, write_part};
use pac_buffers::Pac;
use pac_logon::write_logon;
use pac_sign::sign;
use std::alloc::{AllocError, Global};

/// AD-IF-RELEVANT (RFC 4120, section 5.2.6.1).
const AD_IF_RELEVANT: i32 = 1;

/// AD-WIN2K-PAC (RFC 4120, section 7.5.4).
const AD_WIN2K_PAC: i32 = 128;

/// Whether a ticket of this holder is a service ticket.
fn is_service(holder: &Holder) -> bool
    ensures { result ≡ is_service holder.now }
{
    matches!(holder, Holder::Account { .. })
}

/// The type of a key's checksums (RFC 3962, section 7).
fn sum_type(key: &Key) -> i32
    ensures { result ≡ pos (sum_type key.now.etype) }
{
    match key.etype {
        Etype::Aes128 => 15,
        Etype::Aes256 => 16,
    }
}

/// Bytes that may be absent, lent.
fn lent(bytes: &Option<Bytes>) -> Option<&[u8]>
    ensures { option_map (λ lent. lent.now) result ≡ bytes.now }
{
    match bytes {
        None => None,
        Some(bytes) => Some(bytes.as_slice()),
    }
}

fn logon_bytes(alloc: Global, rec: &TicketRec) -> Result<Bytes, AllocError>
    requires { IsSound rec.now }
    ensures ok { IfOk result (λ bytes. bytes ≡ spelling logon (logon_of rec.now)) }
    ensures short { IfOk result (λ bytes. length bytes < 2 ^ 30) }
{
    write_logon(alloc, &logon_of(alloc, rec)?)
}

fn client_bytes(alloc: Global, rec: &TicketRec) -> Result<Bytes, AllocError>
    requires { IsSound rec.now }
    ensures ok { IfOk result (λ bytes. bytes ≡ packed_spelling client (client_of rec.now)) }
    ensures short { IfOk result (λ bytes. length bytes < 2 ^ 30) }
{
    client_of(alloc, rec)?.write()
}

fn delegation_bytes(
    alloc: Global,
    delegated: &Option<Delegation>,
) -> Result<Option<Bytes>, AllocError>
    requires { IfSome delegated.now (λ d. IsWritableDelegation (delegation_of d)) }
    ensures ok { IfOk result (λ bytes. bytes ≡ option_map (spelling delegation) (option_map delegation_of delegated.now)) }
    ensures short { IfOk result (λ bytes. IfSome bytes (λ x. length x < 2 ^ 30)) }
{
    match delegated {
        None => Ok(None),
        Some(delegated) => Ok(Some(delegation_of(alloc, delegated)?.write()?)),
    }
}

/// The PAC before it is signed.
fn unsigned_pac(
    alloc: Global,
    rec: &TicketRec,
    holder_key: &Key,
    realm_key: &Key,
) -> Result<Pac, AllocError>
    requires { IsSound rec.now }
    ensures { IfOk result (λ pac. pac ≡ unsigned_pac rec.now holder_key.now realm_key.now) }
{
    let logon = logon_bytes(alloc, rec)?;
    let client = client_bytes(alloc, rec)?;
    let delegation = delegation_bytes(alloc, &rec.delegation)?;
    Pac::build(
        alloc,
        logon.as_slice(),
        client.as_slice(),
        lent(&delegation),
        is_service(&rec.holder),
        sum_type(holder_key),
        sum_type(realm_key),
    )
}

/// Authorization data of one item, with these ad-type and ad-data.
fn lone_item(alloc: Global, kind: i32, content: Bytes) -> Result<AuthItems, AllocError>
    ensures { IfOk result (λ items. items ≡ record { kind = kind; content = content } ∷ []) }
{
    let mut items = Items::new(alloc);
    items.push(AuthItem { kind, content })?;
    Ok(items)
}

/// Authorization data that hold a PAC and nothing else.
fn only_pac(alloc: Global, pac: &[u8]) -> Result<AuthItems, AllocError>
    requires { length pac.now < 2 ^ 31 }
    ensures { IfOk result (λ items. items ≡ only_pac pac.now) }
{
    let elements = lone_item(alloc, AD_WIN2K_PAC, Bytes::copy(alloc, pac)?)?;
    lone_item(alloc, AD_IF_RELEVANT, write(alloc, &elements)?)
}

/// The part of a record with these bytes for its PAC.
fn part_with(alloc: Global, pac: &[u8], rec: &TicketRec) -> Result<EncTicketPart, AllocError>
    requires { length pac.now < 2 ^ 31 }
    ensures { IfOk result (λ made. made ≡ part_with pac.now rec.now) }
{
    Ok(EncTicketPart {
        flags: rec.flags,
        key: rec.session,
        client: rec.client.try_clone(alloc)?,
        transited: rec.transited.try_clone(alloc)?,
        auth: rec.auth,
        start: Some(rec.start),
        end: rec.end,
        items: only_pac(alloc, pac)?,
    })
}

/// The DER of the part that the ticket signature of a service ticket is over.
fn signed_part(alloc: Global, rec: &TicketRec) -> Result<Option<Bytes>, AllocError>
    requires { IsSound rec.now }
    ensures { IfOk result (λ bytes. bytes ≡ signed_part rec.now) }
{
    if !is_service(&rec.holder) {
        return Ok(None);
    }
    let zeroed = part_with(alloc, &[0], rec)?;
    Ok(Some(write_part(&zeroed)?))
}

/// The part of a record: its PAC is signed under the key of its holder and the key of the ticket-granting service of the
/// realm that issues the ticket.
pub fn make_part(
    alloc: Global,
    rec: &TicketRec,
    holder_key: &Key,
    realm_key: &Key,
) -> Result<EncTicketPart, AllocError>
    requires { IsSound rec.now }
    ensures ok { IfOk result (λ made. made ≡ part rec.now holder_key.now realm_key.now) }
    // It can be written.
    ensures fits { IfOk result (λ made. enc_ticket_part.Fits made) }
    ensures short { IfOk result (λ made. length (enc_ticket_part.spelling made) < 2 ^ 24) }
{
    let mut pac = unsigned_pac(alloc, rec, holder_key, realm_key)?;
    let signed = signed_part(alloc, rec)?;
    sign(&mut pac, holder_key, realm_key, lent(&signed));
    part_with(alloc, pac.as_slice(), rec)
}
