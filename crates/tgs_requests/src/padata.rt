//! Padata of a request by their types (RFC 4120, section 5.2.7).
ghost use Rattle.std.specs.Prelude.{◌≡◌, ℕ, ◌<◌, ◌≤◌, ◌*◌, ◌^◌, IfOk, IfSome, filter, length};
ghost use Rattle.std.specs.List.{AllByRecursion, count_by, find, list_any};
ghost use Rattle.std.specs.Option.{option_copied};
ghost use Rattle.der_core.specs.Codec.{whole};
ghost use Rattle.as_core.specs.Stamps.{items_of};
ghost use Rattle.tgs_requests.specs.Askings.{at_most_one, is_of_type, only, read_or_none};

use der_forms::Form;
use krb_messages::{PaData, PaItems};
use krb_tickets::{TicketFault, read_message};
use std::alloc::{AllocError, Global};

/// The padata of a request, if there are any.
pub(crate) fn items_of(padata: Option<&PaItems>) -> &[PaData]
    ensures { result.now ≡ items_of (option_copied padata.entry) }
{
    match padata {
        Some(items) => items.as_slice(),
        None => &[],
    }
}

/// Whether it is of a type.
pub(crate) fn is_of_type(number: u16, item: &PaData) -> bool
    ensures { result ≡ is_of_type number item.now }
{
    item.padata_type == i32::from(number)
}

/// The value that bytes are, if they are one.
pub(crate) fn read_whole<T: Form>(alloc: Global, bytes: &[u8]) -> Result<Option<T>, AllocError>
    requires { length bytes.now < 2 ^ 32 }
    ensures value { IfOk result (λ found. found ≡ read_or_none (whole T.codec bytes.now)) }
    // What is read is in the grammar, and can be written, in at most three times as many bytes.
    ensures found { IfOk result (λ found. IfSome found (λ x. T.codec.IsDer bytes.now x)) }
    ensures fits { IfOk result (λ found. IfSome found (λ x. T.codec.Fits x)) }
    ensures short { IfOk result (λ found. IfSome found (λ x. length (T.codec.spelling x) ≤ 3 * length bytes.now)) }
{
    match read_message::<T>(alloc, bytes) {
        Ok(value) => Ok(Some(value)),
        Err(TicketFault::Malformed(_)) => Ok(None),
        Err(TicketFault::NoMemory) => Err(AllocError),
    }
}

fn count_of(number: u16, items: &[PaData]) -> usize
    ensures { result ≡ count_by (is_of_type number) items.now }
{
    items.iter().filter(|item| is_of_type(number, item)).count()
}

fn first_of(number: u16, items: &[PaData]) -> Option<&PaData>
    ensures { option_copied result ≡ find (is_of_type number) items.now }
{
    items.iter().find(|item| is_of_type(number, item))
}

/// The only one of a type, if there is exactly one.
pub(crate) fn only_of(number: u16, items: &[PaData]) -> Option<&PaData>
    ensures { option_copied result ≡ only (filter (is_of_type number) items.now) }
{
    if count_of(number, items) == 1 {
        first_of(number, items)
    } else {
        None
    }
}

/// Whether there is one of a type.
fn has_type(number: u16, items: &[PaData]) -> bool
    ensures { result ≡ list_any (is_of_type number) items.now }
{
    items.iter().any(|item| is_of_type(number, item))
}

/// What the padata of a type say, of which there is one at most: nothing where there are more, or it does not read.
pub(crate) fn read_one<T: Form>(
    alloc: Global,
    number: u16,
    items: &[PaData],
) -> Result<Option<Option<T>>, AllocError>
    requires short { AllByRecursion (λ item. length item.padata_value < 2 ^ 32) items.now }
    ensures value { IfOk result (λ found. found ≡ at_most_one T.codec (filter (is_of_type number) items.now)) }
    ensures fits { IfOk result (λ found. IfSome found (λ one. IfSome one (λ x. T.codec.Fits x))) }
    ensures short { (n : ℕ) → AllByRecursion (λ item. length item.padata_value ≤ n) items.now → IfOk result (λ found. IfSome found (λ one. IfSome one (λ x. length (T.codec.spelling x) ≤ 3 * n))) }
{
    if !has_type(number, items) {
        return Ok(Some(None));
    }
    let Some(item) = only_of(number, items) else {
        return Ok(None);
    };
    match read_whole(alloc, item.padata_value.as_slice())? {
        Some(value) => Ok(Some(Some(value))),
        None => Ok(None),
    }
}
