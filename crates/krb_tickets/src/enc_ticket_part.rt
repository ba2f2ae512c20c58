//! EncTicketPart (RFC 4120, section 5.3):
//! ```text
//! EncTicketPart ::= [APPLICATION 3] SEQUENCE {
//!     flags              [0] TicketFlags,
//!     key                [1] EncryptionKey,
//!     crealm             [2] Realm,
//!     cname              [3] PrincipalName,
//!     transited          [4] TransitedEncoding,
//!     authtime           [5] KerberosTime,
//!     starttime          [6] KerberosTime OPTIONAL,
//!     endtime            [7] KerberosTime,
//!     renew-till         [8] KerberosTime OPTIONAL,    -- read past
//!     caddr              [9] HostAddresses OPTIONAL,   -- read past
//!     authorization-data [10] AuthorizationData OPTIONAL
//! }
//! ```
ghost use Rattle.std.specs.Prelude.{◌≡◌, ◌+◌, ◌++◌, ◌<◌, ◌≤◌, ◌*◌, ◌^◌, ◌↔◌, ℕ, List, IfOk, IsTrue, Ok, length};
ghost use Rattle.kdc_prelude.specs.Answers.{Answers};
ghost use Rattle.der_core.specs.Codec.{whole};
ghost use Rattle.krb_tickets.specs.declared.enc_ticket_part.EncTicketPart.{EncTicketPart};
ghost use Rattle.krb_tickets.specs.EncTicketPart.{enc_ticket_part};
ghost use Rattle.krb_tickets.specs.SamePart.{same_key, same_name, same_part, same_time};
ghost use Rattle.krb_tickets.specs.Told.{told};

use crate::auth_item::AuthItems;
use crate::fault::TicketFault;
use crate::host_address::HostAddress;
use crate::message::read_message;
use crate::principal_name::{PrincipalName, put_name};
use crate::transited::{put_transited, transited_field};
use der_core::{Reader, Writer};
use der_forms::{
    Flags, Form, ReadFault, Sequence, field, keeps_laws, optional, optional_list, put_field,
    put_list, put_optional, put_tagged, read_tagged, write,
};
use krb_names::{Bytes, Items, KTime, Key, Principal, Texts};
use std::alloc::{AllocError, Global};

/// What is sealed in a ticket, without renew-till and caddr, which are read past.
#[derive(Debug, Drop)]
pub struct EncTicketPart {
    /// TicketFlags, bit 0 the highest.
    pub flags: u32,
    /// The session key.
    pub key: Key,
    /// cname in crealm.
    pub client: Principal,
    /// The realms of the transited encoding.
    pub transited: Texts,
    /// authtime
    pub auth: KTime,
    /// starttime
    pub start: Option<KTime>,
    /// endtime
    pub end: KTime,
    /// authorization-data; none where the field is absent.
    pub items: AuthItems,
}

impl Sequence for EncTicketPart {
    ghost use Rattle.krb_tickets.specs.EncTicketPart.{fields};
    ghost use Rattle.krb_tickets.specs.Laws.{enc_ticket_part_fields};

    ghost fields = { fields };

    fn read_fields(alloc: Global, from: &mut Reader) -> Result<EncTicketPart, ReadFault> {
        let Flags(flags) = field(alloc, from, 0)?;
        let key = field(alloc, from, 1)?;
        let crealm = field(alloc, from, 2)?;
        let cname: PrincipalName = field(alloc, from, 3)?;
        let transited = transited_field(alloc, from)?;
        let auth = field(alloc, from, 5)?;
        let start = optional(alloc, from, 6)?;
        let end = field(alloc, from, 7)?;
        let _renew_till: Option<KTime> = optional(alloc, from, 8)?;
        let _caddr: Option<Items<HostAddress>> = optional(alloc, from, 9)?;
        let items = optional_list(alloc, from, 10)?;
        from.done()?;
        Ok(EncTicketPart {
            flags,
            key,
            client: cname.in_realm(crealm),
            transited,
            auth,
            start,
            end,
            items,
        })
    }

    fn put_fields(&self, to: &mut Writer) -> Result<(), AllocError> {
        put_field(to, 0, &Flags(self.flags))?;
        put_field(to, 1, &self.key)?;
        put_field(to, 2, &self.client.realm)?;
        put_name(to, 3, &self.client)?;
        put_transited(to, &self.transited)?;
        put_field(to, 5, &self.auth)?;
        put_optional(to, 6, &self.start)?;
        put_field(to, 7, &self.end)?;
        put_list(to, 10, &self.items)?;
        Ok(())
    }

    ghost lawful = { enc_ticket_part_fields };
}

impl Form for EncTicketPart {
    ghost use Rattle.krb_tickets.specs.EncTicketPart.{enc_ticket_part};
    ghost use Rattle.krb_tickets.specs.Laws.{enc_ticket_part_lawful};

    ghost codec = { enc_ticket_part };

    fn read_from(alloc: Global, from: &mut Reader) -> Result<EncTicketPart, ReadFault> {
        read_tagged(alloc, from, 0x63)
    }

    fn write_to(&self, to: &mut Writer) -> Result<(), AllocError> {
        put_tagged(to, 0x63, self)
    }

    ghost lawful = { enc_ticket_part_lawful };
}

/// The part that the bytes are, all of the bytes.
///
/// # Errors
/// `Malformed` with the place of the first fault; `NoMemory`.
pub fn read_part(alloc: Global, bytes: &[u8]) -> Result<EncTicketPart, TicketFault>
    requires { length bytes.now < 2 ^ 32 }
    // What is read is a part.
    ensures found { IfOk result (λ p. enc_ticket_part.IsDer bytes.now p) }
    // It can be written, in at most three times as many bytes.
    ensures value { IfOk result (λ p. enc_ticket_part.Fits p × (length (enc_ticket_part.spelling p) ≤ 3 * length bytes.now)) }
    // Or in at most 8 bytes more: its flags are written as 32 bits, however many were read.
    ensures short { IfOk result (λ p. length (enc_ticket_part.spelling p) ≤ length bytes.now + 8) }
    // What is a part is read, unless memory runs out.
    ensures only { (p : EncTicketPart) → enc_ticket_part.IsDer bytes.now p → Answers TicketFault.NoMemory result (Ok p) }
    // Where the first fault is.
    ensures exact { Answers TicketFault.NoMemory result (told (whole enc_ticket_part bytes.now)) }
{
    read_message(alloc, bytes)
}

/// The one spelling of a part: flags of 32 bits, no renew-till and no caddr, no items as an absent field.
pub fn write_part(value: &EncTicketPart) -> Result<Bytes, AllocError>
    requires fits { enc_ticket_part.Fits value.now }
    requires short { length (enc_ticket_part.spelling value.now) < 2 ^ 31 }
    ensures ok { IfOk result (λ bytes. bytes ≡ enc_ticket_part.spelling value.now) }
{
    write(value.items.allocator(), value)
}

/// What holds of the form of parts.
pub fn part_keeps_laws()
    // What is written is a part.
    ensures ok { (p : EncTicketPart) → enc_ticket_part.Fits p → length (enc_ticket_part.spelling p) < 2 ^ 32 → enc_ticket_part.IsDer (enc_ticket_part.spelling p) p }
    // And it is read again.
    ensures value { (p : EncTicketPart) → enc_ticket_part.Fits p → length (enc_ticket_part.spelling p) < 2 ^ 32 → whole enc_ticket_part (enc_ticket_part.spelling p) ≡ Ok p }
    // No part's bytes begin with another's, and bytes are at most one part.
    ensures only { (a b u v : List ℕ) (p q : EncTicketPart) → enc_ticket_part.IsDer a p → enc_ticket_part.IsDer b q → a ++ u ≡ b ++ v → (a ≡ b) × (p ≡ q) }
{
    keeps_laws::<EncTicketPart>()
}

/// Whether two parts are the same in each field: flags, key, client, transited realms, times and authorization data.
#[tactic(auto, using(crate::specs::SamePartLaws::same_is, crate::specs::SamePartLaws::equal_is))]
pub fn is_same_part(a: &EncTicketPart, b: &EncTicketPart) -> bool
    ensures value { result ≡ same_part a.now b.now }
    // The same parts are equal, and equal parts the same.
    ensures exact { IsTrue result ↔ (a.now ≡ b.now) }
{
    are_same(a, b)
}

#[tactic(auto, unfolding(crate::specs::SamePart::same_part))]
fn are_same(a: &EncTicketPart, b: &EncTicketPart) -> bool
    ensures { result ≡ same_part a.now b.now }
{
    a.flags == b.flags
        && has_same_key(&a.key, &b.key)
        && has_same_name(&a.client, &b.client)
        && a.transited.as_slice() == b.transited.as_slice()
        && a.auth == b.auth
        && has_same_time(&a.start, &b.start)
        && a.end == b.end
        && a.items.as_slice() == b.items.as_slice()
}

fn has_same_key(a: &Key, b: &Key) -> bool
    ensures { result ≡ same_key a.now b.now }
{
    a.etype.number() == b.etype.number() && a.raw == b.raw
}

fn has_same_name(a: &Principal, b: &Principal) -> bool
    ensures { result ≡ same_name a.now b.now }
{
    a.kind == b.kind && a.is_same(b)
}

fn has_same_time(a: &Option<KTime>, b: &Option<KTime>) -> bool
    ensures { result ≡ same_time a.now b.now }
{
    match (a, b) {
        (Some(a), Some(b)) => a == b,
        (None, None) => true,
        _ => false,
    }
}
