//! Making a ticket of a record.

ghost use Rattle.std.specs.Prelude.{◌≡◌, ◌+◌, ◌<◌, ◌^◌, IfOk, length};
ghost use Rattle.aes_core.specs.Inverses.{AreBytes};
ghost use Rattle.der_core.specs.Laws.{IsBytes};
ghost use Rattle.krb_crypto.specs.Encryption.{seal};
ghost use Rattle.krb_tickets.specs.Ticket.{ticket};
ghost use Rattle.kdc_records.specs.Parties.{version_of};
ghost use Rattle.ticket_parts.specs.Sound.{IsSound};
ghost use Rattle.ticket_codec.specs.Made.{IsTicketName, ticket_of, ticket_with};

use crate::bytes::bytes_fit;
use crate::opening::TICKET_USAGE;
use kdc_records::{Holder, TicketRec};
use krb_crypto::seal;
use krb_names::{Bytes, Key, Principal, Realm, TryClone};
use krb_tickets::{EncryptedData, Ticket, write_part};
use std::alloc::{AllocError, Global};
use ticket_parts::make_part;

/// The bounds of a key's type.
fn key_fits(raw: &[u8; 32])
    ensures { (length raw.now ≡ 32) × AreBytes raw.now }
{
    bytes_fit(raw);
}

/// What is sealed in a ticket, with 28 bytes round it.
fn seal_text(alloc: Global, key: &Key, conf: &[u8; 16], text: &[u8]) -> Result<Bytes, AllocError>
    ensures value { IfOk result (λ cipher. cipher ≡ seal key.now 2 conf.now text.now) }
    ensures size { IfOk result (λ cipher. length cipher ≡ length text.now + 28) }
    ensures well { IfOk result (λ cipher. IsBytes cipher) }
{
    let cipher = seal(alloc, key, TICKET_USAGE, conf, text)?;
    key_fits(&key.raw);
    bytes_fit(cipher.as_slice());
    Ok(cipher)
}

/// The ticket with these bytes for what is sealed with the holder's key.
fn ticket_with(
    alloc: Global,
    holder: &Holder,
    sname: &Principal,
    issuer: &Realm,
    key: &Key,
    cipher: Bytes,
) -> Result<Ticket, AllocError>
    ensures value { IfOk result (λ made. made ≡ ticket_with holder.now sname.now issuer.now key.now cipher) }
    ensures few { version_of holder.now < 2 ^ 32 }
{
    let version = holder.version();
    Ok(Ticket {
        realm: issuer.try_clone(alloc)?,
        sname: sname.try_clone(alloc)?,
        sealed: EncryptedData {
            etype: key.etype.number(),
            kvno: Some(version),
            cipher,
        },
    })
}

/// The ticket of a record, under this name and issued by this realm: sealed with the key of the record's holder after a
/// confounder, its PAC signed under that key and under the key of the issuing realm's ticket-granting service. A service
/// ticket has a ticket signature. The name's realm is the issuing realm.
pub fn make_ticket(
    alloc: Global,
    rec: &TicketRec,
    sname: &Principal,
    issuer: &Realm,
    holder_key: &Key,
    realm_key: &Key,
    conf: &[u8; 16],
) -> Result<Ticket, AllocError>
    requires sound { IsSound rec.now }
    requires name { IsTicketName issuer.now sname.now }
    ensures ok { IfOk result (λ made. made ≡ ticket_of rec.now sname.now issuer.now holder_key.now realm_key.now conf.now) }
    // It can be written.
    ensures fits { IfOk result (λ made. ticket.Fits made) }
    ensures short { IfOk result (λ made. length (ticket.spelling made) < 2 ^ 25) }
{
    let part = make_part(alloc, rec, holder_key, realm_key)?;
    let text = write_part(&part)?;
    let cipher = seal_text(alloc, holder_key, conf, text.as_slice())?;
    ticket_with(alloc, &rec.holder, sname, issuer, holder_key, cipher)
}
