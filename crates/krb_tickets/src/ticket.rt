//! Ticket (RFC 4120, section 5.3):
//! ```text
//! Ticket ::= [APPLICATION 1] SEQUENCE {
//!     tkt-vno  [0] INTEGER (5),
//!     realm    [1] Realm,
//!     sname    [2] PrincipalName,
//!     enc-part [3] EncryptedData
//! }
//! ```
ghost use Rattle.std.specs.Prelude.{◌≡◌, ◌++◌, ◌<◌, ◌≤◌, ◌*◌, ◌^◌, ℕ, List, IfOk, Ok, length};
ghost use Rattle.kdc_prelude.specs.Answers.{Answers};
ghost use Rattle.der_core.specs.Codec.{whole};
ghost use Rattle.krb_tickets.specs.declared.ticket.Ticket.{Ticket};
ghost use Rattle.krb_tickets.specs.Ticket.{ticket};
ghost use Rattle.krb_tickets.specs.Told.{told};

use crate::encrypted_data::EncryptedData;
use crate::fault::TicketFault;
use crate::message::read_message;
use crate::principal_name::{PrincipalName, put_name};
use der_core::{Reader, Writer};
use der_forms::{
    Form, ReadFault, Sequence, field, keeps_laws, number_field, put_field, put_number, put_tagged,
    read_tagged, write,
};
use krb_names::{Bytes, Principal, Realm, TryClone};
use std::alloc::{AllocError, Global};

/// A ticket as it is seen from outside; tkt-vno is always 5.
#[derive(Debug, Drop)]
pub struct Ticket {
    /// The realm that issued it.
    pub realm: Realm,
    /// The service that it is for, in the ticket's realm.
    pub sname: Principal,
    /// enc-part: an encrypted EncTicketPart.
    pub sealed: EncryptedData,
}

impl Sequence for Ticket {
    ghost use Rattle.krb_tickets.specs.Ticket.{fields};
    ghost use Rattle.krb_tickets.specs.Laws.{ticket_fields};

    ghost fields = { fields };

    fn read_fields(alloc: Global, from: &mut Reader) -> Result<Ticket, ReadFault> {
        number_field(from, 0, 5)?;
        let realm: Realm = field(alloc, from, 1)?;
        let sname: PrincipalName = field(alloc, from, 2)?;
        let sealed = field(alloc, from, 3)?;
        from.done()?;
        Ok(Ticket {
            sname: sname.in_realm(realm.try_clone(alloc)?),
            realm,
            sealed,
        })
    }

    fn put_fields(&self, to: &mut Writer) -> Result<(), AllocError> {
        put_number(to, 0, 5)?;
        put_field(to, 1, &self.realm)?;
        put_name(to, 2, &self.sname)?;
        put_field(to, 3, &self.sealed)?;
        Ok(())
    }

    ghost lawful = { ticket_fields };
}

impl Form for Ticket {
    ghost use Rattle.krb_tickets.specs.Ticket.{ticket};
    ghost use Rattle.krb_tickets.specs.Laws.{ticket_lawful};

    ghost codec = { ticket };

    fn read_from(alloc: Global, from: &mut Reader) -> Result<Ticket, ReadFault> {
        read_tagged(alloc, from, 0x61)
    }

    fn write_to(&self, to: &mut Writer) -> Result<(), AllocError> {
        put_tagged(to, 0x61, self)
    }

    ghost lawful = { ticket_lawful };
}

/// The ticket that the bytes are, all of the bytes.
///
/// # Errors
/// `Malformed` with the place of the first fault; `NoMemory`.
pub fn read_ticket(alloc: Global, bytes: &[u8]) -> Result<Ticket, TicketFault>
    requires { length bytes.now < 2 ^ 32 }
    // What is read is a ticket.
    ensures found { IfOk result (λ t. ticket.IsDer bytes.now t) }
    // It can be written, in at most three times as many bytes.
    ensures value { IfOk result (λ t. ticket.Fits t × (length (ticket.spelling t) ≤ 3 * length bytes.now)) }
    // Or in no more bytes.
    ensures short { IfOk result (λ t. length (ticket.spelling t) ≤ length bytes.now) }
    // What is a ticket is read, unless memory runs out.
    ensures only { (t : Ticket) → ticket.IsDer bytes.now t → Answers TicketFault.NoMemory result (Ok t) }
    // Where the first fault is.
    ensures exact { Answers TicketFault.NoMemory result (told (whole ticket bytes.now)) }
{
    read_message(alloc, bytes)
}

/// The one spelling of a ticket.
pub fn write_ticket(value: &Ticket) -> Result<Bytes, AllocError>
    requires fits { ticket.Fits value.now }
    requires short { length (ticket.spelling value.now) < 2 ^ 31 }
    ensures ok { IfOk result (λ bytes. bytes ≡ ticket.spelling value.now) }
{
    write(value.realm.allocator(), value)
}

/// What holds of the form of tickets.
pub fn ticket_keeps_laws()
    // What is written is a ticket.
    ensures ok { (t : Ticket) → ticket.Fits t → length (ticket.spelling t) < 2 ^ 32 → ticket.IsDer (ticket.spelling t) t }
    // And it is read again.
    ensures value { (t : Ticket) → ticket.Fits t → length (ticket.spelling t) < 2 ^ 32 → whole ticket (ticket.spelling t) ≡ Ok t }
    // No ticket's bytes begin with another's, and bytes are at most one ticket.
    ensures only { (a b u v : List ℕ) (s t : Ticket) → ticket.IsDer a s → ticket.IsDer b t → a ++ u ≡ b ++ v → (a ≡ b) × (s ≡ t) }
{
    keeps_laws::<Ticket>()
}
