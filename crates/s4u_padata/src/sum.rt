//! A checksum that stands within another type.
ghost use Rattle.std.specs.Prelude.{◌≡◌, ◌++◌, ◌<◌, ◌^◌, length, OnOk};
ghost use Rattle.der_core.specs.Elements.{element};
ghost use Rattle.der_forms.specs.Fields.{tag_of};
ghost use Rattle.krb_messages.specs.Checksum.{checksum_form};

use der_core::Writer;
use der_forms::put_field;
use krb_names::Bytes;
use std::alloc::AllocError;

/// Writes the field with this number, a checksum of this type.
pub(crate) fn put_sum(
    to: &mut Writer,
    number: u8,
    sum_type: &i32,
    sum: &Bytes,
) -> Result<(), AllocError>
    requires number { number < 31 }
    requires fits { checksum_form.Fits (record { cksumtype = sum_type.now; checksum = sum.now }) }
    requires short { length (checksum_form.spelling (record { cksumtype = sum_type.now; checksum = sum.now })) < 2 ^ 32 }
    ensures ok { OnOk result (to.new ≡ to.old ++ element (tag_of number) (checksum_form.spelling (record { cksumtype = sum_type.now; checksum = sum.now }))) }
{
    let mark = to.mark();
    put_field(to, 0, sum_type)?;
    put_field(to, 1, sum)?;
    to.wrap(0x30, mark)?;
    to.wrap(0xa0 + number, mark)
}
