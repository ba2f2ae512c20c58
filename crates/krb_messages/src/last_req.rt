//! LastReq (RFC 4120, section 5.4.2):
//! ```text
//! LastReq ::= SEQUENCE OF SEQUENCE {
//!     lr-type  [0] Int32,
//!     lr-value [1] KerberosTime
//! }
//! ```

use der_core::{Reader, Writer};
use der_forms::{Form, ReadFault, Sequence, field, put_field, put_sequence, read_sequence};
use krb_names::{Items, KTime};
use krb_tickets::PlainMessage;
use std::alloc::{AllocError, Global};

/// A time of a kind, as that of the client's last request.
#[derive(Debug, Drop)]
pub struct LastReq {
    pub lr_type: i32,
    pub lr_value: KTime,
}

/// Such times.
pub type LastReqs = Items<LastReq>;

impl Sequence for LastReq {
    ghost use Rattle.krb_messages.specs.LastReq.{fields};
    ghost use Rattle.krb_messages.specs.Laws.{last_req_fields};

    ghost fields = { fields };

    fn read_fields(alloc: Global, from: &mut Reader) -> Result<LastReq, ReadFault> {
        let lr_type = field(alloc, from, 0)?;
        let lr_value = field(alloc, from, 1)?;
        from.done()?;
        Ok(LastReq { lr_type, lr_value })
    }

    fn put_fields(&self, to: &mut Writer) -> Result<(), AllocError> {
        put_field(to, 0, &self.lr_type)?;
        put_field(to, 1, &self.lr_value)?;
        Ok(())
    }

    ghost lawful = { last_req_fields };
}

impl Form for LastReq {
    ghost use Rattle.krb_messages.specs.LastReq.{last_req};
    ghost use Rattle.krb_messages.specs.Laws.{last_req_lawful};

    ghost codec = { last_req };

    fn read_from(alloc: Global, from: &mut Reader) -> Result<LastReq, ReadFault> {
        read_sequence(alloc, from)
    }

    fn write_to(&self, to: &mut Writer) -> Result<(), AllocError> {
        put_sequence(to, self)
    }

    ghost lawful = { last_req_lawful };
}

impl PlainMessage for LastReq {}
