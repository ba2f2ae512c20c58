//! A SEQUENCE that stands within one of two application tags.
ghost use Rattle.std.specs.Prelude.{◌≡◌, ◌++◌, ◌<◌, ◌^◌, length, Bool, OnOk};
ghost use Rattle.der_core.specs.Codec.{explicit};
ghost use Rattle.der_forms.specs.Fields.{Fields, sequence};
ghost use Rattle.der_forms.specs.Laws.{AreFields};
ghost use Rattle.der_forms.specs.Reads.{Reads, ReadsOn};
ghost use Rattle.der_forms.specs.Choices.{choice};

use crate::read_fault::ReadFault;
use der_core::{Reader, Writer};
use std::alloc::{AllocError, Global};

/// A struct whose form is one of two SEQUENCEs, each within its own tag; the value tells which.
pub trait Choice: Drop {
    ghost first: { Self → Bool };

    ghost fields: { Bool → Fields Self };

    /// Whether the value is of the first form.
    fn is_first(&self) -> bool
        ensures { result ≡ first self.now };

    /// Reads the fields of the first form or of the second, up to the end of the content.
    fn read_fields(alloc: Global, from: &mut Reader, is_first: bool) -> Result<Self, ReadFault>
        ensures exact { Reads result ((fields is_first).content.reading from.old) };

    /// Writes the fields at the end.
    fn put_fields(&self, to: &mut Writer) -> Result<(), AllocError>
        requires fits { (fields (first self.now)).content.Fits self.now }
        requires short { length ((fields (first self.now)).content.spelling self.now) < 2 ^ 32 }
        ensures ok { OnOk result (to.new ≡ (fields (first self.now)).appended to.old self.now) };

    ghost lawful: { (b : Bool) → AreFields (fields b) };
}

/// Reads the first form within its tag byte, or else the second.
pub fn read_choice<T: Choice>(
    alloc: Global,
    from: &mut Reader,
    first: u8,
    second: u8,
) -> Result<T, ReadFault>
    ensures exact { ReadsOn result from.new ((choice first second T.first (λ b. sequence (T.fields b))).reading from.old) }
{
    match from.peek() {
        Some(tag) if tag == first => read_tagged(alloc, from, first, true),
        _ => read_tagged(alloc, from, second, false),
    }
}

fn read_tagged<T: Choice>(
    alloc: Global,
    from: &mut Reader,
    tag: u8,
    is_first: bool,
) -> Result<T, ReadFault>
    ensures exact { ReadsOn result from.new ((explicit tag (sequence (T.fields is_first))).reading from.old) }
{
    let mut content = from.take(tag)?;
    let value = read_sequence(alloc, &mut content, is_first)?;
    content.done()?;
    Ok(value)
}

fn read_sequence<T: Choice>(
    alloc: Global,
    from: &mut Reader,
    is_first: bool,
) -> Result<T, ReadFault>
    ensures exact { ReadsOn result from.new ((sequence (T.fields is_first)).reading from.old) }
{
    let mut content = from.take(0x30)?;
    T::read_fields(alloc, &mut content, is_first)
}

/// Writes the value's form within its tag byte.
pub fn put_choice<T: Choice>(
    to: &mut Writer,
    first: u8,
    second: u8,
    value: &T,
) -> Result<(), AllocError>
    requires fits { (T.fields (T.first value.now)).content.Fits value.now }
    requires short { length ((choice first second T.first (λ b. sequence (T.fields b))).spelling value.now) < 2 ^ 32 }
    ensures ok { OnOk result (to.new ≡ to.old ++ (choice first second T.first (λ b. sequence (T.fields b))).spelling value.now) }
{
    let tag = if value.is_first() { first } else { second };
    let mark = to.mark();
    put_sequence(to, value)?;
    to.wrap(tag, mark)
}

fn put_sequence<T: Choice>(to: &mut Writer, value: &T) -> Result<(), AllocError>
    requires fits { (T.fields (T.first value.now)).content.Fits value.now }
    requires short { length ((sequence (T.fields (T.first value.now))).spelling value.now) < 2 ^ 32 }
    ensures ok { OnOk result (to.new ≡ to.old ++ (sequence (T.fields (T.first value.now))).spelling value.now) }
{
    let mark = to.mark();
    put_content(to, value)?;
    to.wrap(0x30, mark)
}

fn put_content<T: Choice>(to: &mut Writer, value: &T) -> Result<(), AllocError>
    requires fits { (T.fields (T.first value.now)).content.Fits value.now }
    requires short { length ((T.fields (T.first value.now)).content.spelling value.now) < 2 ^ 32 }
    ensures ok { OnOk result (to.new ≡ to.old ++ (T.fields (T.first value.now)).content.spelling value.now) }
{
    value.put_fields(to)
}
