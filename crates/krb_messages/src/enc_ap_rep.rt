//! EncAPRepPart (RFC 4120, section 5.5.2):
//! ```text
//! EncAPRepPart ::= [APPLICATION 27] SEQUENCE {
//!     ctime      [0] KerberosTime,              -- at most 250,000,000,000
//!     cusec      [1] Microseconds,
//!     subkey     [2] EncryptionKey OPTIONAL,
//!     seq-number [3] UInt32 OPTIONAL            -- any integer of 1 to 8 bytes
//! }
//! ```

use der_core::{Reader, Writer};
use der_forms::{
    Form, Micros, MomentTime, ReadFault, Sequence, field, optional, put_field, put_optional,
    put_tagged, read_tagged,
};
use krb_names::{KTime, Key};
use krb_tickets::PlainMessage;
use std::alloc::{AllocError, Global};

/// What is sealed in an AP-REP.
#[derive(Debug, Drop)]
pub struct EncApRep {
    /// At most 250,000,000,000 seconds.
    pub ctime: KTime,
    /// 0 to 999,999.
    pub cusec: i32,
    pub subkey: Option<Key>,
    pub seq_number: Option<i64>,
}

impl Sequence for EncApRep {
    ghost use Rattle.krb_messages.specs.EncApRep.{fields};
    ghost use Rattle.krb_messages.specs.Laws.{enc_ap_rep_fields};

    ghost fields = { fields };

    fn read_fields(alloc: Global, from: &mut Reader) -> Result<EncApRep, ReadFault> {
        let MomentTime(ctime) = field(alloc, from, 0)?;
        let Micros(cusec) = field(alloc, from, 1)?;
        let subkey = optional(alloc, from, 2)?;
        let seq_number = optional(alloc, from, 3)?;
        from.done()?;
        Ok(EncApRep {
            ctime,
            cusec,
            subkey,
            seq_number,
        })
    }

    fn put_fields(&self, to: &mut Writer) -> Result<(), AllocError> {
        put_field(to, 0, &MomentTime(self.ctime))?;
        put_field(to, 1, &Micros(self.cusec))?;
        put_optional(to, 2, &self.subkey)?;
        put_optional(to, 3, &self.seq_number)?;
        Ok(())
    }

    ghost lawful = { enc_ap_rep_fields };
}

impl Form for EncApRep {
    ghost use Rattle.krb_messages.specs.EncApRep.{enc_ap_rep};
    ghost use Rattle.krb_messages.specs.Laws.{enc_ap_rep_lawful};

    ghost codec = { enc_ap_rep };

    fn read_from(alloc: Global, from: &mut Reader) -> Result<EncApRep, ReadFault> {
        read_tagged(alloc, from, 0x7b)
    }

    fn write_to(&self, to: &mut Writer) -> Result<(), AllocError> {
        put_tagged(to, 0x7b, self)
    }

    ghost lawful = { enc_ap_rep_lawful };
}

impl PlainMessage for EncApRep {}
