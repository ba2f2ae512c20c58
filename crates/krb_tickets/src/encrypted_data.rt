//! EncryptedData (RFC 4120, section 5.2.9):
//! ```text
//! EncryptedData ::= SEQUENCE {
//!     etype  [0] Int32,
//!     kvno   [1] UInt32 OPTIONAL,
//!     cipher [2] OCTET STRING
//! }
//! ```

use der_core::{Reader, Writer};
use der_forms::{
    Form, ReadFault, Sequence, field, optional, put_field, put_optional, put_sequence,
    read_sequence,
};
use krb_names::Bytes;
use std::alloc::{AllocError, Global};

/// Encrypted bytes, the number of their encryption type, and the version of the key.
#[derive(Debug, Drop)]
pub struct EncryptedData {
    pub etype: i32,
    pub kvno: Option<u32>,
    pub cipher: Bytes,
}

impl Sequence for EncryptedData {
    ghost use Rattle.krb_tickets.specs.EncryptedData.{fields};
    ghost use Rattle.krb_tickets.specs.Laws.{encrypted_data_fields};

    ghost fields = { fields };

    fn read_fields(alloc: Global, from: &mut Reader) -> Result<EncryptedData, ReadFault> {
        let etype = field(alloc, from, 0)?;
        let kvno = optional(alloc, from, 1)?;
        let cipher = field(alloc, from, 2)?;
        from.done()?;
        Ok(EncryptedData {
            etype,
            kvno,
            cipher,
        })
    }

    fn put_fields(&self, to: &mut Writer) -> Result<(), AllocError> {
        put_field(to, 0, &self.etype)?;
        put_optional(to, 1, &self.kvno)?;
        put_field(to, 2, &self.cipher)?;
        Ok(())
    }

    ghost lawful = { encrypted_data_fields };
}

impl Form for EncryptedData {
    ghost use Rattle.krb_tickets.specs.EncryptedData.{encrypted_data};
    ghost use Rattle.krb_tickets.specs.Laws.{encrypted_data_lawful};

    ghost codec = { encrypted_data };

    fn read_from(alloc: Global, from: &mut Reader) -> Result<EncryptedData, ReadFault> {
        read_sequence(alloc, from)
    }

    fn write_to(&self, to: &mut Writer) -> Result<(), AllocError> {
        put_sequence(to, self)
    }

    ghost lawful = { encrypted_data_lawful };
}
