//! AP-REQ (RFC 4120, section 5.5.1):
//! ```text
//! AP-REQ ::= [APPLICATION 14] SEQUENCE {
//!     pvno          [0] INTEGER (5),
//!     msg-type      [1] INTEGER (14),
//!     ap-options    [2] APOptions,
//!     ticket        [3] Ticket,
//!     authenticator [4] EncryptedData    -- Authenticator
//! }
//! ```

use der_core::{Reader, Writer};
use der_forms::{
    Flags, Form, ReadFault, Sequence, field, number_field, put_field, put_number, put_tagged,
    read_tagged,
};
use krb_tickets::{EncryptedData, Message, Ticket};
use std::alloc::{AllocError, Global};

/// A ticket that is shown, with a sealed authenticator.
#[derive(Debug, Drop)]
pub struct ApReq {
    /// 5
    pub pvno: i32,
    /// 14
    pub msg_type: i32,
    /// APOptions, bit 0 the highest; bit 2 asks for mutual authentication.
    pub ap_options: u32,
    pub ticket: Ticket,
    pub authenticator: EncryptedData,
}

impl Sequence for ApReq {
    ghost use Rattle.krb_messages.specs.ApReq.{fields};
    ghost use Rattle.krb_messages.specs.Laws.{ap_req_fields};

    ghost fields = { fields };

    fn read_fields(alloc: Global, from: &mut Reader) -> Result<ApReq, ReadFault> {
        number_field(from, 0, 5)?;
        number_field(from, 1, 14)?;
        let Flags(ap_options) = field(alloc, from, 2)?;
        let ticket = field(alloc, from, 3)?;
        let authenticator = field(alloc, from, 4)?;
        from.done()?;
        Ok(ApReq {
            pvno: 5,
            msg_type: 14,
            ap_options,
            ticket,
            authenticator,
        })
    }

    fn put_fields(&self, to: &mut Writer) -> Result<(), AllocError> {
        put_number(to, 0, 5)?;
        put_number(to, 1, 14)?;
        put_field(to, 2, &Flags(self.ap_options))?;
        put_field(to, 3, &self.ticket)?;
        put_field(to, 4, &self.authenticator)?;
        Ok(())
    }

    ghost lawful = { ap_req_fields };
}

impl Form for ApReq {
    ghost use Rattle.krb_messages.specs.ApReq.{ap_req};
    ghost use Rattle.krb_messages.specs.Laws.{ap_req_lawful};

    ghost codec = { ap_req };

    #[tactic(auto, unfolding(crate::specs::ApReq::ap_req))]
    fn read_from(alloc: Global, from: &mut Reader) -> Result<ApReq, ReadFault> {
        read_tagged(alloc, from, 0x6e)
    }

    #[tactic(auto, unfolding(crate::specs::ApReq::ap_req))]
    fn write_to(&self, to: &mut Writer) -> Result<(), AllocError> {
        put_tagged(to, 0x6e, self)
    }

    ghost lawful = { ap_req_lawful };
}

impl Message for ApReq {
    fn allocator(&self) -> Global {
        self.ticket.realm.allocator()
    }
}
