//! SEQUENCE OF (X.690, section 8.10).
ghost use Rattle.std.specs.Prelude.{◌≡◌, ◌++◌, ◌<◌, ◌^◌, length, OnOk};
ghost use Rattle.std.specs.List.{flat_map, AllByRecursion};
ghost use Rattle.der_forms.specs.Lists.{items_at, sequence_of};
ghost use Rattle.der_forms.specs.Reads.{Reads};

use crate::form::Form;
use crate::read_fault::ReadFault;
use der_core::{DerCause, Reader, Writer};
use krb_names::Items;
use std::alloc::{AllocError, Global};

impl<T: Form> Form for Items<T> {
    ghost use Rattle.der_forms.specs.ListLaws.{sequence_of_lawful};

    ghost codec = { sequence_of T.codec };

    fn read_from(alloc: Global, from: &mut Reader) -> Result<Items<T>, ReadFault> {
        let content = from.take(0x30)?;
        let limit = content.rest().len();
        read_items(alloc, content, limit)
    }

    fn write_to(&self, to: &mut Writer) -> Result<(), AllocError> {
        let mark = to.mark();
        put_items(to, self.as_slice())?;
        to.wrap(0x30, mark)
    }

    ghost lawful = { sequence_of_lawful T.codec T.lawful };
}

/// The items of a content. A further one than `limit` is LengthForm at the content, as soon as it begins.
pub fn read_items<T: Form>(
    alloc: Global,
    content: Reader,
    limit: usize,
) -> Result<Items<T>, ReadFault>
    ensures exact { Reads result (items_at limit content.entry.place T.codec content.entry) }
{
    let fault = content.refusal(DerCause::LengthForm);
    let mut from = content;
    let mut items = Items::new(alloc);
    for _ in 0..limit {
        if from.is_empty() {
            return Ok(items);
        }
        let item = T::read_from(alloc, &mut from)?;
        items.push(item)?;
    }
    if !from.is_empty() {
        return Err(ReadFault::Refused(fault));
    }
    Ok(items)
}

/// Writes items at the end, one after the other.
pub fn put_items<T: Form>(to: &mut Writer, items: &[T]) -> Result<(), AllocError>
    requires fits { AllByRecursion T.codec.Fits items.now }
    requires short { length (flat_map T.codec.spelling items.now) < 2 ^ 32 }
    ensures ok { OnOk result (to.new ≡ to.old ++ flat_map T.codec.spelling items.now) }
{
    for item in items {
        item.write_to(to)?;
    }
    Ok(())
}
