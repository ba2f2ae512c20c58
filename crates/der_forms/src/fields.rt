//! Explicitly tagged fields (X.690, section 8.14), by their numbers 0 to 30.
ghost use Rattle.std.specs.Prelude.{◌≡◌, ◌++◌, ◌<◌, ◌^◌, length, OnOk, IfSome, Some, None};
ghost use Rattle.std.specs.List.{flat_map, AllByRecursion};
ghost use Rattle.der_core.specs.Elements.{element};
ghost use Rattle.der_core.specs.Codec.{explicit};
ghost use Rattle.der_core.specs.Integers.{integer};
ghost use Rattle.der_core.specs.Forms.{number_is};
ghost use Rattle.der_forms.specs.Fields.{tag_of, optional_at, optional_spelling, list_at, unless_empty};
ghost use Rattle.der_forms.specs.Lists.{sequence_of};
ghost use Rattle.der_forms.specs.Reads.{ReadsOn};

use crate::form::Form;
use crate::read_fault::ReadFault;
use der_core::{Reader, Writer};
use krb_names::Items;
use std::alloc::{AllocError, Global};

/// The field with this number.
pub fn field<T: Form>(alloc: Global, from: &mut Reader, number: u8) -> Result<T, ReadFault>
    requires { number < 31 }
    ensures exact { ReadsOn result from.new ((explicit (tag_of number) T.codec).reading from.old) }
{
    let mut content = from.take(0xa0 + number)?;
    let value = T::read_from(alloc, &mut content)?;
    content.done()?;
    Ok(value)
}

/// The field with this number, where it is there.
pub fn optional<T: Form>(
    alloc: Global,
    from: &mut Reader,
    number: u8,
) -> Result<Option<T>, ReadFault>
    requires { number < 31 }
    ensures exact { ReadsOn result from.new (optional_at number T.codec from.old) }
{
    match from.peek() {
        Some(tag) if tag == 0xa0 + number => Ok(Some(field(alloc, from, number)?)),
        _ => Ok(None),
    }
}

/// The field with this number, a list; none where it is absent.
pub fn optional_list<T: Form>(
    alloc: Global,
    from: &mut Reader,
    number: u8,
) -> Result<Items<T>, ReadFault>
    requires { number < 31 }
    ensures exact { ReadsOn result from.new (list_at number (sequence_of T.codec) from.old) }
{
    match optional(alloc, from, number)? {
        Some(items) => Ok(items),
        None => Ok(Items::new(alloc)),
    }
}

/// The field with this number, an INTEGER that is always the same.
pub fn number_field(from: &mut Reader, number: u8, value: i64) -> Result<(), ReadFault>
    requires { number < 31 }
    ensures exact { ReadsOn result from.new ((explicit (tag_of number) (number_is value)).reading from.old) }
{
    let mut content = from.take(0xa0 + number)?;
    number_is(&mut content, value)?;
    content.done()?;
    Ok(())
}

fn number_is(from: &mut Reader, value: i64) -> Result<(), ReadFault>
    ensures { ReadsOn result from.new ((number_is value).reading from.old) }
{
    from.int_within(value, value)?;
    Ok(())
}

/// Writes the field with this number.
pub fn put_field<T: Form>(to: &mut Writer, number: u8, value: &T) -> Result<(), AllocError>
    requires number { number < 31 }
    requires fits { T.codec.Fits value.now }
    requires short { length (T.codec.spelling value.now) < 2 ^ 32 }
    ensures ok { OnOk result (to.new ≡ to.old ++ element (tag_of number) (T.codec.spelling value.now)) }
{
    let mark = to.mark();
    value.write_to(to)?;
    to.wrap(0xa0 + number, mark)
}

/// Writes the field with this number, where the value is there.
pub fn put_optional<T: Form>(
    to: &mut Writer,
    number: u8,
    value: &Option<T>,
) -> Result<(), AllocError>
    requires number { number < 31 }
    requires fits { IfSome value.now T.codec.Fits }
    requires short { length (optional_spelling number T.codec value.now) < 2 ^ 32 }
    ensures ok { OnOk result (to.new ≡ to.old ++ optional_spelling number T.codec value.now) }
{
    if let Some(value) = value {
        put_field(to, number, value)?;
    }
    Ok(())
}

/// Writes the field with this number, a list, where it has an item.
pub fn put_list<T: Form>(to: &mut Writer, number: u8, items: &Items<T>) -> Result<(), AllocError>
    requires number { number < 31 }
    requires fits { IfSome (unless_empty items.now) (AllByRecursion T.codec.Fits) }
    requires short { length (optional_spelling number (sequence_of T.codec) (unless_empty items.now)) < 2 ^ 32 }
    ensures ok { OnOk result (to.new ≡ to.old ++ optional_spelling number (sequence_of T.codec) (unless_empty items.now)) }
{
    if items.is_empty() {
        return Ok(());
    }
    put_field(to, number, items)
}

/// Writes the field with this number, an INTEGER.
pub fn put_number(to: &mut Writer, number: u8, value: i64) -> Result<(), AllocError>
    requires number { number < 31 }
    requires short { length (element 2 (integer value)) < 2 ^ 32 }
    ensures ok { OnOk result (to.new ≡ to.old ++ element (tag_of number) (element 2 (integer value))) }
{
    let mark = to.mark();
    to.int(value)?;
    to.wrap(0xa0 + number, mark)
}
