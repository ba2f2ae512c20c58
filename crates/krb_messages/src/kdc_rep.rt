//! KDC-REP (RFC 4120, section 5.4.2):
//! ```text
//! AS-REP  ::= [APPLICATION 11] KDC-REP
//! TGS-REP ::= [APPLICATION 13] KDC-REP
//! KDC-REP ::= SEQUENCE {
//!     pvno     [0] INTEGER (5),
//!     msg-type [1] INTEGER,                     -- 11 or 13, the tag's number
//!     padata   [2] SEQUENCE OF PA-DATA OPTIONAL,
//!     crealm   [3] Realm,
//!     cname    [4] PrincipalName,
//!     ticket   [5] Ticket,
//!     enc-part [6] EncryptedData                -- EncKDCRepPart
//! }
//! ```
ghost use Rattle.std.specs.Prelude.{◌≡◌, ◌++◌, ◌<◌, ◌^◌, length, OnOk};
ghost use Rattle.der_core.specs.Codec.{explicit};
ghost use Rattle.der_core.specs.Elements.{element};
ghost use Rattle.der_core.specs.Forms.{number_is};
ghost use Rattle.der_core.specs.Integers.{integer};
ghost use Rattle.der_forms.specs.Fields.{tag_of};
ghost use Rattle.der_forms.specs.Reads.{ReadsOn};
ghost use Rattle.krb_messages.specs.KdcRep.{msg_type_of};

use crate::pa_data::PaItems;
use der_core::{Reader, Writer};
use der_forms::{
    Choice, Form, ReadFault, field, number_field, optional, put_choice, put_field, put_number,
    put_optional, read_choice,
};
use krb_names::{Principal, Realm, TryClone};
use krb_tickets::{EncryptedData, Message, PrincipalName, Ticket, put_name};
use std::alloc::{AllocError, Global};

/// A reply of the AS exchange or of the TGS exchange.
#[derive(Debug, Drop)]
pub struct KdcRep {
    /// 5
    pub pvno: i32,
    /// 11 or 13.
    pub msg_type: i32,
    pub padata: Option<PaItems>,
    pub crealm: Realm,
    /// cname in crealm
    pub cname: Principal,
    pub ticket: Ticket,
    pub enc_part: EncryptedData,
}

fn msg_type_of(is_as: bool) -> i32
    ensures { result ≡ msg_type_of is_as }
{
    if is_as { 11 } else { 13 }
}

/// Reads the field msg-type.
fn type_field(from: &mut Reader, is_as: bool) -> Result<(), ReadFault>
    ensures exact { ReadsOn result from.new ((explicit (tag_of 1) (number_is (msg_type_of is_as))).reading from.old) }
{
    let msg_type = msg_type_of(is_as);
    number_field(from, 1, msg_type as i64)
}

/// Writes the field msg-type.
fn put_type(to: &mut Writer, is_as: bool) -> Result<(), AllocError>
    requires short { length (element 2 (integer (msg_type_of is_as))) < 2 ^ 32 }
    ensures ok { OnOk result (to.new ≡ to.old ++ element (tag_of 1) (element 2 (integer (msg_type_of is_as)))) }
{
    put_number(to, 1, msg_type_of(is_as) as i64)
}

impl Choice for KdcRep {
    ghost use Rattle.krb_messages.specs.KdcRep.{fields, is_as_rep};
    ghost use Rattle.krb_messages.specs.Laws.{kdc_rep_fields};

    ghost first = { is_as_rep };

    ghost fields = { fields };

    fn is_first(&self) -> bool {
        self.msg_type == 11
    }

    fn read_fields(alloc: Global, from: &mut Reader, is_first: bool) -> Result<KdcRep, ReadFault> {
        number_field(from, 0, 5)?;
        type_field(from, is_first)?;
        let padata = optional(alloc, from, 2)?;
        let crealm: Realm = field(alloc, from, 3)?;
        let cname: PrincipalName = field(alloc, from, 4)?;
        let ticket = field(alloc, from, 5)?;
        let enc_part = field(alloc, from, 6)?;
        from.done()?;
        Ok(KdcRep {
            pvno: 5,
            msg_type: msg_type_of(is_first),
            padata,
            cname: cname.in_realm(crealm.try_clone(alloc)?),
            crealm,
            ticket,
            enc_part,
        })
    }

    fn put_fields(&self, to: &mut Writer) -> Result<(), AllocError> {
        put_number(to, 0, 5)?;
        put_type(to, self.is_first())?;
        put_optional(to, 2, &self.padata)?;
        put_field(to, 3, &self.crealm)?;
        put_name(to, 4, &self.cname)?;
        put_field(to, 5, &self.ticket)?;
        put_field(to, 6, &self.enc_part)?;
        Ok(())
    }

    ghost lawful = { kdc_rep_fields };
}

impl Form for KdcRep {
    ghost use Rattle.krb_messages.specs.KdcRep.{kdc_rep};
    ghost use Rattle.krb_messages.specs.Laws.{kdc_rep_lawful};

    ghost codec = { kdc_rep };

    #[tactic(auto, unfolding(crate::specs::KdcRep::kdc_rep))]
    fn read_from(alloc: Global, from: &mut Reader) -> Result<KdcRep, ReadFault> {
        read_choice(alloc, from, 0x6b, 0x6d)
    }

    #[tactic(auto, unfolding(crate::specs::KdcRep::kdc_rep))]
    fn write_to(&self, to: &mut Writer) -> Result<(), AllocError> {
        put_choice(to, 0x6b, 0x6d, self)
    }

    ghost lawful = { kdc_rep_lawful };
}

impl Message for KdcRep {
    fn allocator(&self) -> Global {
        self.crealm.allocator()
    }
}
