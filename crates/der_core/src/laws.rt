//! What holds of the forms of single values.
ghost use Rattle.der_core.specs.Laws.{IsCodec};
ghost use Rattle.der_core.specs.Forms.{int, bits, octets, text};

/// For INTEGER, BIT STRING, OCTET STRING and GeneralString: what is read is of the form, what is of the form is read, what is
/// written is of the form, and what is of the form can be written.
pub fn single_values_keep_laws()
    ensures integers { IsCodec int }
    ensures bit_strings { IsCodec bits }
    ensures octet_strings { IsCodec octets }
    ensures texts { IsCodec text }
{}
