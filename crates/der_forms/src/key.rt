//! EncryptionKey (RFC 4120, section 5.2.9):
//! ```text
//! EncryptionKey ::= SEQUENCE {
//!     keytype  [0] Int32,          -- 17 or 18
//!     keyvalue [1] OCTET STRING    -- 16 or 32 octets
//! }
//! ```
ghost use Rattle.std.specs.Prelude.{◌≡◌, ◌++◌, ◌<◌, ◌^◌, length, OnOk, IfOk};
ghost use Rattle.der_core.specs.Codec.{explicit};
ghost use Rattle.der_core.specs.Elements.{element};
ghost use Rattle.der_forms.specs.Reads.{GivesOn};
ghost use Rattle.der_forms.specs.Fields.{tag_of};
ghost use Rattle.der_forms.specs.Keys.{key_octets};
ghost use Rattle.krb_names.specs.Etypes.{key_length};

use crate::fields::{field, put_field};
use crate::form::{Form, Sequence};
use crate::read_fault::ReadFault;
use crate::sequence::{put_sequence, read_sequence};
use der_core::{DerCause, DerRefusal, Reader, Writer};
use krb_names::{Etype, Key};
use std::alloc::{AllocError, Global};

impl Form for Etype {
    ghost use Rattle.der_forms.specs.Keys.{etype};
    ghost use Rattle.der_forms.specs.KeyLaws.{etype_lawful};

    ghost codec = { etype };

    fn read_from(_alloc: Global, from: &mut Reader) -> Result<Etype, ReadFault> {
        match from.int_within(17, 18)? {
            17 => Ok(Etype::Aes128),
            _ => Ok(Etype::Aes256),
        }
    }

    fn write_to(&self, to: &mut Writer) -> Result<(), AllocError> {
        to.int(self.number() as i64)
    }

    ghost lawful = { etype_lawful };
}

impl Sequence for Key {
    ghost use Rattle.der_forms.specs.Keys.{fields};
    ghost use Rattle.der_forms.specs.KeyLaws.{key_fields};

    ghost fields = { fields };

    fn read_fields(alloc: Global, from: &mut Reader) -> Result<Key, ReadFault> {
        let etype = field(alloc, from, 0)?;
        let octets = key_field(from, etype)?;
        from.done()?;
        Ok(Key::new(etype, octets))
    }

    fn put_fields(&self, to: &mut Writer) -> Result<(), AllocError> {
        put_field(to, 0, &self.etype)?;
        put_octets(to, 1, self.bytes())
    }

    ghost lawful = { key_fields };
}

/// The field keyvalue, whose octets are as many as the type's keys have.
fn key_field<'a>(from: &mut Reader<'a>, etype: Etype) -> Result<&'a [u8], DerRefusal>
    ensures exact { GivesOn (λ x. x.now) result from.new ((explicit (tag_of 1) (key_octets etype)).reading from.old) }
    ensures value { IfOk result (λ octets. length octets.now ≡ key_length etype) }
{
    let mut inner = from.take(0xa1)?;
    let content = inner.take(4)?;
    if content.rest().len() != etype.key_length() {
        return Err(content.refusal(DerCause::LengthForm));
    }
    inner.done()?;
    Ok(content.rest())
}

/// Writes the field with this number, an OCTET STRING.
fn put_octets(to: &mut Writer, number: u8, octets: &[u8]) -> Result<(), AllocError>
    requires number { number < 31 }
    requires short { length (element 4 octets.now) < 2 ^ 32 }
    ensures ok { OnOk result (to.new ≡ to.old ++ element (tag_of number) (element 4 octets.now)) }
{
    let mark = to.mark();
    to.octets(octets)?;
    to.wrap(0xa0 + number, mark)
}

impl Form for Key {
    ghost use Rattle.der_forms.specs.Keys.{encryption_key};
    ghost use Rattle.der_forms.specs.KeyLaws.{key_lawful};

    ghost codec = { encryption_key };

    fn read_from(alloc: Global, from: &mut Reader) -> Result<Key, ReadFault> {
        read_sequence(alloc, from)
    }

    fn write_to(&self, to: &mut Writer) -> Result<(), AllocError> {
        put_sequence(to, self)
    }

    ghost lawful = { key_lawful };
}
