//! Single values.
ghost use Rattle.std.specs.Prelude.{◌≡◌};
ghost use Rattle.der_forms.specs.Values.{bare_micros, each_micros};

use crate::form::Form;
use crate::read_fault::ReadFault;
use der_core::{Reader, Writer};
use krb_names::{Bytes, Text};
use std::alloc::{AllocError, Global};

/// KerberosFlags (RFC 4120, section 5.2.8): 32 bits, bit 0 the highest.
#[derive(Clone, Copy, Debug, PartialEq, Eq)]
pub struct Flags(pub u32);

/// A nonce: UInt32 (RFC 4120, section 5.2.4), and from -2^31 on, since some clients write it as Int32.
#[derive(Clone, Copy, Debug, PartialEq, Eq)]
pub struct Nonce(pub i64);

/// Microseconds (RFC 4120, section 5.2.4), 0 to 999,999.
#[derive(Clone, Copy, Debug, PartialEq, Eq)]
pub struct Micros(pub i32);

impl Form for Flags {
    ghost use Rattle.der_forms.specs.Values.{flags, flags_lawful};

    ghost codec = { flags };

    fn read_from(_alloc: Global, from: &mut Reader) -> Result<Flags, ReadFault> {
        Ok(Flags(from.bits()?))
    }

    fn write_to(&self, to: &mut Writer) -> Result<(), AllocError> {
        to.bits(self.0)
    }

    ghost lawful = { flags_lawful };
}

/// The number of microseconds that may be absent.
pub fn bare_micros(micros: Option<Micros>) -> Option<i32>
    ensures { result ≡ bare_micros micros }
{
    match micros {
        Some(Micros(number)) => Some(number),
        None => None,
    }
}

/// Microseconds of a number that may be absent.
pub fn each_micros(number: Option<i32>) -> Option<Micros>
    ensures { result ≡ each_micros number }
{
    match number {
        Some(number) => Some(Micros(number)),
        None => None,
    }
}

impl Form for Nonce {
    ghost use Rattle.der_forms.specs.Values.{nonce, nonce_lawful};

    ghost codec = { nonce };

    fn read_from(_alloc: Global, from: &mut Reader) -> Result<Nonce, ReadFault> {
        Ok(Nonce(from.int_within(i32::MIN as i64, u32::MAX as i64)?))
    }

    fn write_to(&self, to: &mut Writer) -> Result<(), AllocError> {
        to.int(self.0)
    }

    ghost lawful = { nonce_lawful };
}

impl Form for Micros {
    ghost use Rattle.der_forms.specs.Values.{micros, micros_lawful};

    ghost codec = { micros };

    fn read_from(_alloc: Global, from: &mut Reader) -> Result<Micros, ReadFault> {
        Ok(Micros(from.int_within(0, 999_999)? as i32))
    }

    fn write_to(&self, to: &mut Writer) -> Result<(), AllocError> {
        to.int(self.0 as i64)
    }

    ghost lawful = { micros_lawful };
}

impl Form for i32 {
    ghost use Rattle.der_core.specs.Forms.{int32};
    ghost use Rattle.der_core.specs.FormLaws.{int32_lawful};

    ghost codec = { int32 };

    fn read_from(_alloc: Global, from: &mut Reader) -> Result<i32, ReadFault> {
        Ok(from.int_within(i32::MIN as i64, i32::MAX as i64)? as i32)
    }

    fn write_to(&self, to: &mut Writer) -> Result<(), AllocError> {
        to.int(*self as i64)
    }

    ghost lawful = { int32_lawful };
}

impl Form for u32 {
    ghost use Rattle.der_core.specs.Forms.{uint32};
    ghost use Rattle.der_core.specs.FormLaws.{uint32_lawful};

    ghost codec = { uint32 };

    fn read_from(_alloc: Global, from: &mut Reader) -> Result<u32, ReadFault> {
        Ok(from.int_within(0, u32::MAX as i64)? as u32)
    }

    fn write_to(&self, to: &mut Writer) -> Result<(), AllocError> {
        to.int(*self as i64)
    }

    ghost lawful = { uint32_lawful };
}

/// Any integer of 1 to 8 bytes.
impl Form for i64 {
    ghost use Rattle.der_core.specs.Forms.{int};
    ghost use Rattle.der_core.specs.FormLaws.{int_lawful};

    ghost codec = { int };

    fn read_from(_alloc: Global, from: &mut Reader) -> Result<i64, ReadFault> {
        Ok(from.int()?)
    }

    fn write_to(&self, to: &mut Writer) -> Result<(), AllocError> {
        to.int(*self)
    }

    ghost lawful = { int_lawful };
}

impl Form for Bytes {
    ghost use Rattle.der_core.specs.Forms.{octets};
    ghost use Rattle.der_core.specs.FormLaws.{octets_lawful};

    ghost codec = { octets };

    fn read_from(alloc: Global, from: &mut Reader) -> Result<Bytes, ReadFault> {
        Ok(Bytes::copy(alloc, from.octets()?)?)
    }

    fn write_to(&self, to: &mut Writer) -> Result<(), AllocError> {
        to.octets(self.as_slice())
    }

    ghost lawful = { octets_lawful };
}

impl Form for Text {
    ghost use Rattle.der_core.specs.Forms.{text};
    ghost use Rattle.der_core.specs.FormLaws.{text_lawful};

    ghost codec = { text };

    fn read_from(alloc: Global, from: &mut Reader) -> Result<Text, ReadFault> {
        Ok(Text::copy(alloc, from.text()?)?)
    }

    fn write_to(&self, to: &mut Writer) -> Result<(), AllocError> {
        to.text(self.as_str())
    }

    ghost lawful = { text_lawful };
}
