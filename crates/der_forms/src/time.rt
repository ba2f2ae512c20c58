//! KerberosTime (RFC 4120, section 5.2.3): `KerberosTime ::= GeneralizedTime`, in whole seconds.
ghost use Rattle.std.specs.Prelude.{◌≡◌};
ghost use Rattle.der_forms.specs.Times.{bare_time, each_time};

use crate::form::Form;
use crate::read_fault::ReadFault;
use der_core::{DerCause, Reader, Writer};
use krb_names::{KTime, ktime_read, ktime_write};
use std::alloc::{AllocError, Global};

impl Form for KTime {
    ghost use Rattle.der_forms.specs.Times.{kerberos_time};
    ghost use Rattle.der_forms.specs.TimeLaws.{kerberos_time_lawful};

    ghost codec = { kerberos_time };

    fn read_from(_alloc: Global, from: &mut Reader) -> Result<KTime, ReadFault> {
        let content = from.take(0x18)?;
        match ktime_read(content.rest()) {
            Ok(time) => Ok(time),
            Err(_) => Err(ReadFault::Refused(content.refusal(DerCause::BadText))),
        }
    }

    fn write_to(&self, to: &mut Writer) -> Result<(), AllocError> {
        to.time(&ktime_write(*self))
    }

    ghost lawful = { kerberos_time_lawful };
}

/// A time in whole seconds that a `Moment` can have, at most 250,000,000,000.
#[derive(Clone, Copy, Debug, PartialEq, Eq)]
pub struct MomentTime(pub KTime);

/// The time that may be absent.
pub fn bare_time(time: Option<MomentTime>) -> Option<KTime>
    ensures { result ≡ bare_time time }
{
    match time {
        Some(MomentTime(time)) => Some(time),
        None => None,
    }
}

/// The same, as one that a `Moment` can have.
pub fn each_time(time: Option<KTime>) -> Option<MomentTime>
    ensures { result ≡ each_time time }
{
    match time {
        Some(time) => Some(MomentTime(time)),
        None => None,
    }
}

impl Form for MomentTime {
    ghost use Rattle.der_forms.specs.Times.{moment_time};
    ghost use Rattle.der_forms.specs.TimeLaws.{moment_time_lawful};

    ghost codec = { moment_time };

    fn read_from(_alloc: Global, from: &mut Reader) -> Result<MomentTime, ReadFault> {
        let content = from.take(0x18)?;
        match ktime_read(content.rest()) {
            Ok(time) if time.secs() <= 250_000_000_000 => Ok(MomentTime(time)),
            _ => Err(ReadFault::Refused(content.refusal(DerCause::BadText))),
        }
    }

    fn write_to(&self, to: &mut Writer) -> Result<(), AllocError> {
        self.0.write_to(to)
    }

    ghost lawful = { moment_time_lawful };
}
