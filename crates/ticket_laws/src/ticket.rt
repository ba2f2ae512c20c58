//! Tickets that can be written (RFC 4120, section 5.3).
ghost use Rattle.ticket_laws.specs.Laws.{TicketFits, TicketIsWritable, TicketIsShort, ReadTicketIsWritable};

/// What holds of the plain conditions on tickets: what meets them can be written, and is short; what can be written, and what was
/// read, meets them.
pub fn writable_tickets_keep_laws()
    ensures fits { TicketFits }
    ensures only { TicketIsWritable }
    ensures short { TicketIsShort }
    ensures found { ReadTicketIsWritable }
{}
