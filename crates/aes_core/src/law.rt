//! The two directions undo each other (FIPS 197, section 5.3).

ghost use Rattle.aes_core.specs.Inverses.{AreInverses};

/// Under every key of 128 or 256 bits each direction gives blocks for blocks and undoes the other.
pub fn inverse_law()
    ensures { AreInverses }
{}
