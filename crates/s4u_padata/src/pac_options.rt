//! PA-PAC-OPTIONS (MS-KILE, section 2.2.10): `SEQUENCE { flags [0] KerberosFlags }`.

use der_core::{Reader, Writer};
use der_forms::{Flags, Form, ReadFault, Sequence, field, put_field, put_sequence, read_sequence};
use krb_tickets::PlainMessage;
use std::alloc::{AllocError, Global};

/// Options of a request that concern PACs.
#[derive(Clone, Copy, Debug, PartialEq, Eq)]
pub struct PacOptions {
    /// Bit 0 the highest; bit 3 is resource-based constrained delegation.
    pub flags: u32,
}

impl Sequence for PacOptions {
    ghost use Rattle.s4u_padata.specs.PacOptions.{fields};
    ghost use Rattle.s4u_padata.specs.Laws.{pac_options_fields};

    ghost fields = { fields };

    fn read_fields(alloc: Global, from: &mut Reader) -> Result<PacOptions, ReadFault> {
        let Flags(flags) = field(alloc, from, 0)?;
        from.done()?;
        Ok(PacOptions { flags })
    }

    fn put_fields(&self, to: &mut Writer) -> Result<(), AllocError> {
        put_field(to, 0, &Flags(self.flags))?;
        Ok(())
    }

    ghost lawful = { pac_options_fields };
}

impl Form for PacOptions {
    ghost use Rattle.s4u_padata.specs.PacOptions.{pac_options};
    ghost use Rattle.s4u_padata.specs.Laws.{pac_options_lawful};

    ghost codec = { pac_options };

    fn read_from(alloc: Global, from: &mut Reader) -> Result<PacOptions, ReadFault> {
        read_sequence(alloc, from)
    }

    fn write_to(&self, to: &mut Writer) -> Result<(), AllocError> {
        put_sequence(to, self)
    }

    ghost lawful = { pac_options_lawful };
}

impl PlainMessage for PacOptions {}
