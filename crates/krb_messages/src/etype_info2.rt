//! ETYPE-INFO2 (RFC 4120, section 5.2.7.5):
//! ```text
//! ETYPE-INFO2 ::= SEQUENCE OF SEQUENCE {
//!     etype     [0] Int32,
//!     salt      [1] KerberosString OPTIONAL,
//!     s2kparams [2] OCTET STRING OPTIONAL
//! }
//! ```

use der_core::{Reader, Writer};
use der_forms::{
    Form, ReadFault, Sequence, field, optional, put_field, put_optional, put_sequence,
    read_sequence,
};
use krb_names::{Bytes, Items, Text};
use krb_tickets::PlainMessage;
use std::alloc::{AllocError, Global};

/// An encryption type, and what makes a key of it from a password.
#[derive(Debug, Drop)]
pub struct EtypeInfo2Entry {
    pub etype: i32,
    pub salt: Option<Text>,
    pub s2kparams: Option<Bytes>,
}

/// Such entries.
pub type EtypeInfo2 = Items<EtypeInfo2Entry>;

impl Sequence for EtypeInfo2Entry {
    ghost use Rattle.krb_messages.specs.EtypeInfo2Entry.{fields};
    ghost use Rattle.krb_messages.specs.Laws.{etype_info2_entry_fields};

    ghost fields = { fields };

    fn read_fields(alloc: Global, from: &mut Reader) -> Result<EtypeInfo2Entry, ReadFault> {
        let etype = field(alloc, from, 0)?;
        let salt = optional(alloc, from, 1)?;
        let s2kparams = optional(alloc, from, 2)?;
        from.done()?;
        Ok(EtypeInfo2Entry {
            etype,
            salt,
            s2kparams,
        })
    }

    fn put_fields(&self, to: &mut Writer) -> Result<(), AllocError> {
        put_field(to, 0, &self.etype)?;
        put_optional(to, 1, &self.salt)?;
        put_optional(to, 2, &self.s2kparams)?;
        Ok(())
    }

    ghost lawful = { etype_info2_entry_fields };
}

impl Form for EtypeInfo2Entry {
    ghost use Rattle.krb_messages.specs.EtypeInfo2Entry.{etype_info2_entry};
    ghost use Rattle.krb_messages.specs.Laws.{etype_info2_entry_lawful};

    ghost codec = { etype_info2_entry };

    fn read_from(alloc: Global, from: &mut Reader) -> Result<EtypeInfo2Entry, ReadFault> {
        read_sequence(alloc, from)
    }

    fn write_to(&self, to: &mut Writer) -> Result<(), AllocError> {
        put_sequence(to, self)
    }

    ghost lawful = { etype_info2_entry_lawful };
}

impl PlainMessage for EtypeInfo2Entry {}
