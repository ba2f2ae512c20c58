//! Checksum (RFC 4120, section 5.2.9): `SEQUENCE { cksumtype [0] Int32, checksum [1] OCTET STRING }`.

use der_core::{Reader, Writer};
use der_forms::{Form, ReadFault, Sequence, field, put_field, put_sequence, read_sequence};
use krb_names::Bytes;
use krb_tickets::Message;
use std::alloc::{AllocError, Global};

/// A checksum and its type.
#[derive(Debug, Drop)]
pub struct Checksum {
    pub cksumtype: i32,
    pub checksum: Bytes,
}

impl Sequence for Checksum {
    ghost use Rattle.krb_messages.specs.Checksum.{fields};
    ghost use Rattle.krb_messages.specs.Laws.{checksum_fields};

    ghost fields = { fields };

    fn read_fields(alloc: Global, from: &mut Reader) -> Result<Checksum, ReadFault> {
        let cksumtype = field(alloc, from, 0)?;
        let checksum = field(alloc, from, 1)?;
        from.done()?;
        Ok(Checksum {
            cksumtype,
            checksum,
        })
    }

    fn put_fields(&self, to: &mut Writer) -> Result<(), AllocError> {
        put_field(to, 0, &self.cksumtype)?;
        put_field(to, 1, &self.checksum)?;
        Ok(())
    }

    ghost lawful = { checksum_fields };
}

impl Form for Checksum {
    ghost use Rattle.krb_messages.specs.Checksum.{checksum_form};
    ghost use Rattle.krb_messages.specs.Laws.{checksum_lawful};

    ghost codec = { checksum_form };

    fn read_from(alloc: Global, from: &mut Reader) -> Result<Checksum, ReadFault> {
        read_sequence(alloc, from)
    }

    fn write_to(&self, to: &mut Writer) -> Result<(), AllocError> {
        put_sequence(to, self)
    }

    ghost lawful = { checksum_lawful };
}

impl Message for Checksum {
    fn allocator(&self) -> Global {
        self.checksum.allocator()
    }
}
