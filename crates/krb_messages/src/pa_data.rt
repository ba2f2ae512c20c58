//! PA-DATA (RFC 4120, section 5.2.7):
//! ```text
//! PA-DATA ::= SEQUENCE {
//!     padata-type  [1] Int32,
//!     padata-value [2] OCTET STRING
//! }
//! ```

use der_core::{Reader, Writer};
use der_forms::{Form, ReadFault, Sequence, field, put_field, put_sequence, read_sequence};
use krb_names::{Bytes, Items};
use krb_tickets::Message;
use std::alloc::{AllocError, Global};

/// A piece of pre-authentication data.
#[derive(Debug, Drop)]
pub struct PaData {
    pub padata_type: i32,
    pub padata_value: Bytes,
}

/// METHOD-DATA.
pub type PaItems = Items<PaData>;

impl Sequence for PaData {
    ghost use Rattle.krb_messages.specs.PaData.{fields};
    ghost use Rattle.krb_messages.specs.Laws.{pa_data_fields};

    ghost fields = { fields };

    fn read_fields(alloc: Global, from: &mut Reader) -> Result<PaData, ReadFault> {
        let padata_type = field(alloc, from, 1)?;
        let padata_value = field(alloc, from, 2)?;
        from.done()?;
        Ok(PaData {
            padata_type,
            padata_value,
        })
    }

    fn put_fields(&self, to: &mut Writer) -> Result<(), AllocError> {
        put_field(to, 1, &self.padata_type)?;
        put_field(to, 2, &self.padata_value)?;
        Ok(())
    }

    ghost lawful = { pa_data_fields };
}

impl Form for PaData {
    ghost use Rattle.krb_messages.specs.PaData.{pa_data};
    ghost use Rattle.krb_messages.specs.Laws.{pa_data_lawful};

    ghost codec = { pa_data };

    fn read_from(alloc: Global, from: &mut Reader) -> Result<PaData, ReadFault> {
        read_sequence(alloc, from)
    }

    fn write_to(&self, to: &mut Writer) -> Result<(), AllocError> {
        put_sequence(to, self)
    }

    ghost lawful = { pa_data_lawful };
}

impl Message for PaData {
    fn allocator(&self) -> Global {
        self.padata_value.allocator()
    }
}
