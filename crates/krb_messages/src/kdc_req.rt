//! KDC-REQ (RFC 4120, section 5.4.1):
//! ```text
//! AS-REQ  ::= [APPLICATION 10] KDC-REQ
//! TGS-REQ ::= [APPLICATION 12] KDC-REQ
//! KDC-REQ ::= SEQUENCE {
//!     pvno     [1] INTEGER,
//!     msg-type [2] INTEGER,                     -- 10 or 12, the tag's number
//!     padata   [3] SEQUENCE OF PA-DATA OPTIONAL,
//!     req-body [4] KDC-REQ-BODY
//! }
//! ```
ghost use Rattle.std.specs.Prelude.{◌≡◌, ◌<◌, ◌^◌, IfOk, length};
ghost use Rattle.der_core.specs.Codec.{explicit};
ghost use Rattle.der_core.specs.Forms.{number_is};
ghost use Rattle.der_forms.specs.Fields.{tag_of};
ghost use Rattle.der_forms.specs.Reads.{ReadsOn};
ghost use Rattle.krb_messages.specs.KdcReq.{msg_type_of, kdc_req, respelt};
ghost use Rattle.krb_messages.specs.KdcReqLaws.{IsOwn};

use crate::kdc_req_body::KdcReqBody;
use crate::pa_data::PaItems;
use der_core::{Reader, Writer};
use der_forms::{
    Choice, Form, ReadFault, field, kept_field, number_field, optional, put_choice, put_field,
    put_kept, put_number, put_optional, read_choice, write,
};
use krb_names::Bytes;
use krb_tickets::Message;
use std::alloc::{AllocError, Global};

/// A request, and its body's bytes as received.
#[derive(Debug, Drop)]
pub struct KdcReq {
    pub pvno: i32,
    /// 10 or 12.
    pub msg_type: i32,
    pub padata: Option<PaItems>,
    pub req_body: KdcReqBody,
    /// Bytes that read as the body.
    pub body_bytes: Bytes,
}

fn msg_type_of(is_as: bool) -> i32
    ensures { result ≡ msg_type_of is_as }
{
    if is_as { 10 } else { 12 }
}

/// Reads the field msg-type.
fn type_field(from: &mut Reader, is_as: bool) -> Result<(), ReadFault>
    ensures exact { ReadsOn result from.new ((explicit (tag_of 2) (number_is (msg_type_of is_as))).reading from.old) }
{
    let msg_type = msg_type_of(is_as);
    number_field(from, 2, msg_type as i64)
}

impl Choice for KdcReq {
    ghost use Rattle.krb_messages.specs.KdcReq.{fields, is_as_req};
    ghost use Rattle.krb_messages.specs.Laws.{kdc_req_fields};

    ghost first = { is_as_req };

    ghost fields = { fields };

    fn is_first(&self) -> bool {
        self.msg_type == 10
    }

    fn read_fields(alloc: Global, from: &mut Reader, is_first: bool) -> Result<KdcReq, ReadFault> {
        let pvno = field(alloc, from, 1)?;
        type_field(from, is_first)?;
        let padata = optional(alloc, from, 3)?;
        let (req_body, body_bytes) = kept_field(alloc, from, 4)?;
        from.done()?;
        Ok(KdcReq {
            pvno,
            msg_type: msg_type_of(is_first),
            padata,
            req_body,
            body_bytes,
        })
    }

    fn put_fields(&self, to: &mut Writer) -> Result<(), AllocError> {
        put_field(to, 1, &self.pvno)?;
        put_number(to, 2, msg_type_of(self.is_first()) as i64)?;
        put_optional(to, 3, &self.padata)?;
        put_kept(to, 4, &self.body_bytes)?;
        Ok(())
    }

    ghost lawful = { kdc_req_fields };
}

impl Form for KdcReq {
    ghost use Rattle.krb_messages.specs.KdcReq.{kdc_req};
    ghost use Rattle.krb_messages.specs.Laws.{kdc_req_lawful};

    ghost codec = { kdc_req };

    #[tactic(auto, unfolding(crate::specs::KdcReq::kdc_req))]
    fn read_from(alloc: Global, from: &mut Reader) -> Result<KdcReq, ReadFault> {
        read_choice(alloc, from, 0x6a, 0x6c)
    }

    #[tactic(auto, unfolding(crate::specs::KdcReq::kdc_req))]
    fn write_to(&self, to: &mut Writer) -> Result<(), AllocError> {
        put_choice(to, 0x6a, 0x6c, self)
    }

    ghost lawful = { kdc_req_lawful };
}

impl Message for KdcReq {
    fn allocator(&self) -> Global {
        self.body_bytes.allocator()
    }
}

/// The bytes of a request whose `body_bytes` are the one spelling of its body.
#[tactic(auto, using(crate::specs::KdcReqLaws::own_fits, crate::specs::KdcReqLaws::own_respelt, crate::specs::KdcReqLaws::own_is))]
pub fn write_request(value: &KdcReq) -> Result<Bytes, AllocError>
    requires own { IsOwn value.now }
    requires short { length (kdc_req.spelling value.now) < 2 ^ 32 }
    // The body is spelt from its fields.
    ensures ok { IfOk result (λ bytes. bytes ≡ kdc_req.spelling (respelt value.now)) }
    // And the bytes read as the request.
    ensures value { IfOk result (λ bytes. kdc_req.IsDer bytes value.now) }
{
    write(value.allocator(), value)
}
