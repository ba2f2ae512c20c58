//! What a type gives for its reading and writing.
ghost use Rattle.std.specs.Prelude.{◌≡◌, ◌++◌, ◌<◌, ◌^◌, length, OnOk};
ghost use Rattle.der_core.specs.Codec.{Codec};
ghost use Rattle.der_core.specs.Laws.{IsCodec};
ghost use Rattle.der_forms.specs.Fields.{Fields};
ghost use Rattle.der_forms.specs.Laws.{AreFields};
ghost use Rattle.der_forms.specs.Reads.{Reads, ReadsOn};

use crate::read_fault::ReadFault;
use der_core::{Reader, Writer};
use std::alloc::{AllocError, Global};

/// A value that is read and written in one form, `codec`.
pub trait Form: Drop {
    ghost codec: { Codec Self };

    /// Reads one from the front. After a refusal the reader may stand anywhere.
    fn read_from(alloc: Global, from: &mut Reader) -> Result<Self, ReadFault>
        ensures exact { ReadsOn result from.new (codec.reading from.old) };

    /// Writes it at the end.
    fn write_to(&self, to: &mut Writer) -> Result<(), AllocError>
        requires fits { codec.Fits self.now }
        requires short { length (codec.spelling self.now) < 2 ^ 32 }
        ensures ok { OnOk result (to.new ≡ to.old ++ codec.spelling self.now) };

    ghost lawful: { IsCodec codec };
}

/// A struct whose form is a SEQUENCE of explicitly tagged fields, `fields`.
pub trait Sequence: Drop {
    ghost fields: { Fields Self };

    /// Reads the fields, up to the end of the content.
    fn read_fields(alloc: Global, from: &mut Reader) -> Result<Self, ReadFault>
        ensures exact { Reads result (fields.content.reading from.old) };

    /// Writes the fields at the end.
    fn put_fields(&self, to: &mut Writer) -> Result<(), AllocError>
        requires fits { fields.content.Fits self.now }
        requires short { length (fields.content.spelling self.now) < 2 ^ 32 }
        ensures ok { OnOk result (to.new ≡ fields.appended to.old self.now) };

    ghost lawful: { AreFields fields };
}
