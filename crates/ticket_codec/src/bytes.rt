//! The bounds of the type of bytes.
ghost use Rattle.der_core.specs.Laws.{IsBytes};

/// Bytes are below 256.
pub(crate) fn bytes_fit(bytes: &[u8])
    ensures { IsBytes bytes.now }
{}
