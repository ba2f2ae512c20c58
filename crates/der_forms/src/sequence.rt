//! SEQUENCE and application tags (X.690, sections 8.9 and 8.14).
ghost use Rattle.std.specs.Prelude.{◌≡◌, ◌++◌, ◌<◌, ◌^◌, length, OnOk};
ghost use Rattle.der_core.specs.Codec.{explicit};
ghost use Rattle.der_forms.specs.Fields.{sequence};
ghost use Rattle.der_forms.specs.Reads.{ReadsOn};

use crate::form::Sequence;
use crate::read_fault::ReadFault;
use der_core::{Reader, Writer};
use std::alloc::{AllocError, Global};

/// Reads a SEQUENCE from the front.
pub fn read_sequence<T: Sequence>(alloc: Global, from: &mut Reader) -> Result<T, ReadFault>
    ensures exact { ReadsOn result from.new ((sequence T.fields).reading from.old) }
{
    let mut content = from.take(0x30)?;
    T::read_fields(alloc, &mut content)
}

/// Writes a SEQUENCE at the end.
pub fn put_sequence<T: Sequence>(to: &mut Writer, value: &T) -> Result<(), AllocError>
    requires fits { T.fields.content.Fits value.now }
    requires short { length ((sequence T.fields).spelling value.now) < 2 ^ 32 }
    ensures ok { OnOk result (to.new ≡ to.old ++ (sequence T.fields).spelling value.now) }
{
    let mark = to.mark();
    put_content(to, value)?;
    to.wrap(0x30, mark)
}

fn put_content<T: Sequence>(to: &mut Writer, value: &T) -> Result<(), AllocError>
    requires fits { T.fields.content.Fits value.now }
    requires short { length (T.fields.content.spelling value.now) < 2 ^ 32 }
    ensures ok { OnOk result (to.new ≡ to.old ++ T.fields.content.spelling value.now) }
{
    value.put_fields(to)
}

/// Reads a SEQUENCE within this application tag byte.
pub fn read_tagged<T: Sequence>(alloc: Global, from: &mut Reader, tag: u8) -> Result<T, ReadFault>
    ensures exact { ReadsOn result from.new ((explicit tag (sequence T.fields)).reading from.old) }
{
    let mut content = from.take(tag)?;
    let value = read_sequence(alloc, &mut content)?;
    content.done()?;
    Ok(value)
}

/// Writes a SEQUENCE within this application tag byte.
pub fn put_tagged<T: Sequence>(to: &mut Writer, tag: u8, value: &T) -> Result<(), AllocError>
    requires fits { T.fields.content.Fits value.now }
    requires short { length ((explicit tag (sequence T.fields)).spelling value.now) < 2 ^ 32 }
    ensures ok { OnOk result (to.new ≡ to.old ++ (explicit tag (sequence T.fields)).spelling value.now) }
{
    let mark = to.mark();
    put_sequence(to, value)?;
    to.wrap(tag, mark)
}
