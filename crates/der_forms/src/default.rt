//! Fields whose absence is a value.
ghost use Rattle.std.specs.Prelude.{◌≡◌, ◌++◌, ◌<◌, ◌^◌, length, OnOk, IfSome};
ghost use Rattle.der_forms.specs.Fields.{optional_spelling};
ghost use Rattle.der_forms.specs.Reads.{ReadsOn};
ghost use Rattle.der_forms.specs.Defaults.{defaulted_at, unless_so};

use crate::fields::{optional, put_field};
use crate::form::Form;
use crate::read_fault::ReadFault;
use der_core::{Reader, Writer};
use std::alloc::{AllocError, Global};

/// The field with this number; this value where it is absent.
pub fn optional_or<T: Form>(
    alloc: Global,
    from: &mut Reader,
    number: u8,
    usual: T,
) -> Result<T, ReadFault>
    requires { number < 31 }
    ensures exact { ReadsOn result from.new (defaulted_at number T.codec usual from.old) }
{
    match optional(alloc, from, number)? {
        Some(value) => Ok(value),
        None => Ok(usual),
    }
}

/// Writes the field with this number, unless the value is the usual one.
pub fn put_unless<T: Form>(
    to: &mut Writer,
    number: u8,
    value: &T,
    is_usual: bool,
) -> Result<(), AllocError>
    requires number { number < 31 }
    requires fits { IfSome (unless_so is_usual value.now) T.codec.Fits }
    requires short { length (optional_spelling number T.codec (unless_so is_usual value.now)) < 2 ^ 32 }
    ensures ok { OnOk result (to.new ≡ to.old ++ optional_spelling number T.codec (unless_so is_usual value.now)) }
{
    if is_usual {
        return Ok(());
    }
    put_field(to, number, value)
}
