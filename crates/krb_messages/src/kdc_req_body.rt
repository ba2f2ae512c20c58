//! KDC-REQ-BODY (RFC 4120, section 5.4.1):
//! ```text
//! KDC-REQ-BODY ::= SEQUENCE {
//!     kdc-options            [0] KDCOptions,
//!     cname                  [1] PrincipalName OPTIONAL,
//!     realm                  [2] Realm,
//!     sname                  [3] PrincipalName OPTIONAL,
//!     from                   [4] KerberosTime OPTIONAL,
//!     till                   [5] KerberosTime,
//!     rtime                  [6] KerberosTime OPTIONAL,
//!     nonce                  [7] UInt32,                       -- from -2^31 on
//!     etype                  [8] SEQUENCE OF Int32,
//!     addresses              [9] HostAddresses OPTIONAL,       -- read past
//!     enc-authorization-data [10] EncryptedData OPTIONAL,      -- read past
//!     additional-tickets     [11] SEQUENCE OF Ticket OPTIONAL
//! }
//! ```
ghost use Rattle.std.specs.Prelude.{◌≡◌, ◌++◌, ◌<◌, ◌^◌, length, OnOk};
ghost use Rattle.der_core.specs.Elements.{element};
ghost use Rattle.der_core.specs.Forms.{int32};
ghost use Rattle.der_forms.specs.Fields.{tag_of};
ghost use Rattle.der_forms.specs.Lists.{sequence_of};
ghost use Rattle.der_forms.specs.Values.{nonce as nonce_number};

use der_core::{Reader, Writer};
use der_forms::{
    Flags, Form, Nonce, ReadFault, Sequence, field, optional, put_field, put_optional,
    put_sequence, read_sequence,
};
use krb_names::{Items, KTime, Principal, Realm, Signed};
use krb_tickets::{
    EncryptedData, HostAddress, Message, PrincipalName, Ticket, named, put_optional_name,
};
use std::alloc::{AllocError, Global};

/// Tickets.
pub type Tickets = Items<Ticket>;

/// What a request asks for; both names are in the realm.
#[derive(Debug, Drop)]
pub struct KdcReqBody {
    /// KDCOptions, bit 0 the highest.
    pub kdc_options: u32,
    pub cname: Option<Principal>,
    pub realm: Realm,
    pub sname: Option<Principal>,
    pub from: Option<KTime>,
    pub till: KTime,
    pub rtime: Option<KTime>,
    pub nonce: i64,
    pub etype: Signed,
    pub additional_tickets: Option<Tickets>,
}

impl Sequence for KdcReqBody {
    ghost use Rattle.krb_messages.specs.KdcReqBody.{fields};
    ghost use Rattle.krb_messages.specs.Laws.{kdc_req_body_fields};

    ghost fields = { fields };

    fn read_fields(alloc: Global, from: &mut Reader) -> Result<KdcReqBody, ReadFault> {
        let Flags(kdc_options) = field(alloc, from, 0)?;
        let cname: Option<PrincipalName> = optional(alloc, from, 1)?;
        let realm: Realm = field(alloc, from, 2)?;
        let sname: Option<PrincipalName> = optional(alloc, from, 3)?;
        let start = optional(alloc, from, 4)?;
        let till = field(alloc, from, 5)?;
        let rtime = optional(alloc, from, 6)?;
        let Nonce(nonce) = field(alloc, from, 7)?;
        let etype = field(alloc, from, 8)?;
        let _addresses: Option<Items<HostAddress>> = optional(alloc, from, 9)?;
        let _authorization: Option<EncryptedData> = optional(alloc, from, 10)?;
        let additional_tickets = optional(alloc, from, 11)?;
        from.done()?;
        Ok(KdcReqBody {
            kdc_options,
            cname: named(alloc, cname, &realm)?,
            sname: named(alloc, sname, &realm)?,
            realm,
            from: start,
            till,
            rtime,
            nonce,
            etype,
            additional_tickets,
        })
    }

    fn put_fields(&self, to: &mut Writer) -> Result<(), AllocError> {
        put_field(to, 0, &Flags(self.kdc_options))?;
        put_optional_name(to, 1, &self.cname)?;
        put_field(to, 2, &self.realm)?;
        put_optional_name(to, 3, &self.sname)?;
        put_optional(to, 4, &self.from)?;
        put_field(to, 5, &self.till)?;
        put_optional(to, 6, &self.rtime)?;
        put_numbers(to, &self.nonce, &self.etype)?;
        put_optional(to, 11, &self.additional_tickets)?;
        Ok(())
    }

    ghost lawful = { kdc_req_body_fields };
}

impl Form for KdcReqBody {
    ghost use Rattle.krb_messages.specs.KdcReqBody.{kdc_req_body};
    ghost use Rattle.krb_messages.specs.Laws.{kdc_req_body_lawful};

    ghost codec = { kdc_req_body };

    #[tactic(auto, unfolding(crate::specs::KdcReqBody::kdc_req_body))]
    fn read_from(alloc: Global, from: &mut Reader) -> Result<KdcReqBody, ReadFault> {
        read_sequence(alloc, from)
    }

    #[tactic(auto, unfolding(crate::specs::KdcReqBody::kdc_req_body))]
    fn write_to(&self, to: &mut Writer) -> Result<(), AllocError> {
        put_sequence(to, self)
    }

    ghost lawful = { kdc_req_body_lawful };
}

/// Writes the fields nonce and etype.
fn put_numbers(to: &mut Writer, nonce: &i64, etype: &Signed) -> Result<(), AllocError>
    requires nonce { nonce_number.Fits (record { 0 = nonce.now }) }
    requires etype { (sequence_of int32).Fits etype.now }
    requires short { length ((sequence_of int32).spelling etype.now) < 2 ^ 32 }
    requires brief { length (nonce_number.spelling (record { 0 = nonce.now })) < 2 ^ 32 }
    ensures ok { OnOk result (to.new ≡ (to.old ++ element (tag_of 7) (nonce_number.spelling (record { 0 = nonce.now }))) ++ element (tag_of 8) ((sequence_of int32).spelling etype.now)) }
{
    put_field(to, 7, &Nonce(*nonce))?;
    put_field(to, 8, etype)
}

impl Message for KdcReqBody {
    fn allocator(&self) -> Global {
        self.realm.allocator()
    }
}
