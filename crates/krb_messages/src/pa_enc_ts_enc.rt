//! PA-ENC-TS-ENC, what an encrypted timestamp says (RFC 4120, section 5.2.7.2):
//! ```text
//! PA-ENC-TS-ENC ::= SEQUENCE {
//!     patimestamp [0] KerberosTime,           -- at most 250,000,000,000
//!     pausec      [1] Microseconds OPTIONAL
//! }
//! ```

use der_core::{Reader, Writer};
use der_forms::{
    Form, MomentTime, ReadFault, Sequence, bare_micros, each_micros, field, optional, put_field,
    put_optional, put_sequence, read_sequence,
};
use krb_names::KTime;
use krb_tickets::PlainMessage;
use std::alloc::{AllocError, Global};

/// A client's time.
#[derive(Debug, Drop)]
pub struct PaEncTsEnc {
    /// At most 250,000,000,000 seconds.
    pub patimestamp: KTime,
    /// 0 to 999,999.
    pub pausec: Option<i32>,
}

impl Sequence for PaEncTsEnc {
    ghost use Rattle.krb_messages.specs.PaEncTsEnc.{fields};
    ghost use Rattle.krb_messages.specs.Laws.{pa_enc_ts_enc_fields};

    ghost fields = { fields };

    fn read_fields(alloc: Global, from: &mut Reader) -> Result<PaEncTsEnc, ReadFault> {
        let MomentTime(patimestamp) = field(alloc, from, 0)?;
        let pausec = optional(alloc, from, 1)?;
        from.done()?;
        Ok(PaEncTsEnc {
            patimestamp,
            pausec: bare_micros(pausec),
        })
    }

    fn put_fields(&self, to: &mut Writer) -> Result<(), AllocError> {
        put_field(to, 0, &MomentTime(self.patimestamp))?;
        put_optional(to, 1, &each_micros(self.pausec))?;
        Ok(())
    }

    ghost lawful = { pa_enc_ts_enc_fields };
}

impl Form for PaEncTsEnc {
    ghost use Rattle.krb_messages.specs.PaEncTsEnc.{pa_enc_ts_enc};
    ghost use Rattle.krb_messages.specs.Laws.{pa_enc_ts_enc_lawful};

    ghost codec = { pa_enc_ts_enc };

    fn read_from(alloc: Global, from: &mut Reader) -> Result<PaEncTsEnc, ReadFault> {
        read_sequence(alloc, from)
    }

    fn write_to(&self, to: &mut Writer) -> Result<(), AllocError> {
        put_sequence(to, self)
    }

    ghost lawful = { pa_enc_ts_enc_lawful };
}

impl PlainMessage for PaEncTsEnc {}
