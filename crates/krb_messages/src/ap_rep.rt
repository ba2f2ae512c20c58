//! AP-REP (RFC 4120, section 5.5.2):
//! ```text
//! AP-REP ::= [APPLICATION 15] SEQUENCE {
//!     pvno     [0] INTEGER (5),
//!     msg-type [1] INTEGER (15),
//!     enc-part [2] EncryptedData    -- EncAPRepPart
//! }
//! ```

use der_core::{Reader, Writer};
use der_forms::{
    Form, ReadFault, Sequence, field, number_field, put_field, put_number, put_tagged, read_tagged,
};
use krb_tickets::{EncryptedData, Message};
use std::alloc::{AllocError, Global};

/// The answer to an AP-REQ that asks for mutual authentication.
#[derive(Debug, Drop)]
pub struct ApRep {
    /// 5
    pub pvno: i32,
    /// 15
    pub msg_type: i32,
    pub enc_part: EncryptedData,
}

impl Sequence for ApRep {
    ghost use Rattle.krb_messages.specs.ApRep.{fields};
    ghost use Rattle.krb_messages.specs.Laws.{ap_rep_fields};

    ghost fields = { fields };

    fn read_fields(alloc: Global, from: &mut Reader) -> Result<ApRep, ReadFault> {
        number_field(from, 0, 5)?;
        number_field(from, 1, 15)?;
        let enc_part = field(alloc, from, 2)?;
        from.done()?;
        Ok(ApRep {
            pvno: 5,
            msg_type: 15,
            enc_part,
        })
    }

    fn put_fields(&self, to: &mut Writer) -> Result<(), AllocError> {
        put_number(to, 0, 5)?;
        put_number(to, 1, 15)?;
        put_field(to, 2, &self.enc_part)?;
        Ok(())
    }

    ghost lawful = { ap_rep_fields };
}

impl Form for ApRep {
    ghost use Rattle.krb_messages.specs.ApRep.{ap_rep};
    ghost use Rattle.krb_messages.specs.Laws.{ap_rep_lawful};

    ghost codec = { ap_rep };

    fn read_from(alloc: Global, from: &mut Reader) -> Result<ApRep, ReadFault> {
        read_tagged(alloc, from, 0x6f)
    }

    fn write_to(&self, to: &mut Writer) -> Result<(), AllocError> {
        put_tagged(to, 0x6f, self)
    }

    ghost lawful = { ap_rep_lawful };
}

impl Message for ApRep {
    fn allocator(&self) -> Global {
        self.enc_part.cipher.allocator()
    }
}
