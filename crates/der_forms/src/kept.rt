//! A value beside the bytes that it was read from.
ghost use Rattle.std.specs.Prelude.{◌≡◌, ◌++◌, ◌<◌, ◌^◌, length, OnOk};
ghost use Rattle.der_core.specs.Codec.{explicit};
ghost use Rattle.der_core.specs.Elements.{element};
ghost use Rattle.der_forms.specs.Fields.{tag_of};
ghost use Rattle.der_forms.specs.Reads.{ReadsOn};
ghost use Rattle.der_forms.specs.Kept.{kept};

use crate::form::Form;
use crate::read_fault::ReadFault;
use der_core::{Reader, Writer};
use krb_names::Bytes;
use std::alloc::{AllocError, Global};

/// The field with this number, and its bytes as received.
#[tactic(auto, using(crate::specs::KeptLaws::all_between))]
pub fn kept_field<T: Form>(
    alloc: Global,
    from: &mut Reader,
    number: u8,
) -> Result<(T, Bytes), ReadFault>
    requires { number < 31 }
    ensures exact { ReadsOn result from.new ((explicit (tag_of number) (kept T.codec)).reading from.old) }
{
    let mut content = from.take(0xa0 + number)?;
    let bytes = content.rest();
    let value = T::read_from(alloc, &mut content)?;
    content.done()?;
    Ok((value, Bytes::copy(alloc, bytes)?))
}

/// Writes the field with this number, of these bytes.
pub fn put_kept(to: &mut Writer, number: u8, bytes: &Bytes) -> Result<(), AllocError>
    requires number { number < 31 }
    requires short { length bytes.now < 2 ^ 32 }
    ensures ok { OnOk result (to.new ≡ to.old ++ element (tag_of number) bytes.now) }
{
    let mark = to.mark();
    to.raw(bytes.as_slice())?;
    to.wrap(0xa0 + number, mark)
}
