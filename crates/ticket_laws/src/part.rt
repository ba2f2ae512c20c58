//! What can be sealed in a ticket (RFC 4120, section 5.3).
ghost use Rattle.ticket_laws.specs.Laws.{PartFits, PartIsWritable, PartIsShort, ReadPartIsWritable};

/// What holds of the plain conditions on parts: what meets them can be written, and is short; what can be written, and what was
/// read, meets them.
pub fn writable_parts_keep_laws()
    ensures fits { PartFits }
    ensures only { PartIsWritable }
    ensures short { PartIsShort }
    ensures found { ReadPartIsWritable }
{}
