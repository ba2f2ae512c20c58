//! HostAddress (RFC 4120, section 5.2.5), which is read past wherever it stands:
//! ```text
//! HostAddress ::= SEQUENCE {
//!     addr-type [0] Int32,
//!     address   [1] OCTET STRING
//! }
//! ```

use der_core::{Reader, Writer};
use der_forms::{Form, ReadFault, Sequence, field, put_field, put_sequence, read_sequence};
use krb_names::Bytes;
use std::alloc::{AllocError, Global};

/// A host's address.
#[derive(Debug, Drop)]
pub struct HostAddress {
    pub addr_type: i32,
    pub address: Bytes,
}

impl Sequence for HostAddress {
    ghost use Rattle.krb_tickets.specs.HostAddress.{fields};
    ghost use Rattle.krb_tickets.specs.Laws.{host_address_fields};

    ghost fields = { fields };

    fn read_fields(alloc: Global, from: &mut Reader) -> Result<HostAddress, ReadFault> {
        let addr_type = field(alloc, from, 0)?;
        let address = field(alloc, from, 1)?;
        from.done()?;
        Ok(HostAddress { addr_type, address })
    }

    fn put_fields(&self, to: &mut Writer) -> Result<(), AllocError> {
        put_field(to, 0, &self.addr_type)?;
        put_field(to, 1, &self.address)?;
        Ok(())
    }

    ghost lawful = { host_address_fields };
}

impl Form for HostAddress {
    ghost use Rattle.krb_tickets.specs.HostAddress.{host_address};
    ghost use Rattle.krb_tickets.specs.Laws.{host_address_lawful};

    ghost codec = { host_address };

    fn read_from(alloc: Global, from: &mut Reader) -> Result<HostAddress, ReadFault> {
        read_sequence(alloc, from)
    }

    fn write_to(&self, to: &mut Writer) -> Result<(), AllocError> {
        put_sequence(to, self)
    }

    ghost lawful = { host_address_lawful };
}
