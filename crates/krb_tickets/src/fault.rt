//! Why bytes are no ticket, no part of one, or no message.

use std::alloc::AllocError;

/// The bytes are not of the type; the first fault is at this place.
#[derive(Clone, Copy, Debug, PartialEq, Eq)]
pub struct Malformed {
    /// How many bytes stand before the fault.
    pub place: u32,
}

/// Why a ticket or a message could not be read.
#[derive(Clone, Copy, Debug, PartialEq, Eq)]
pub enum TicketFault {
    /// The bytes are not of the type.
    Malformed(Malformed),
    /// Memory is wanted.
    NoMemory,
}

impl From<AllocError> for TicketFault {
    ghost use Rattle.std.specs.Prelude.{◌≡◌};
    ghost use Rattle.krb_tickets.specs.declared.fault.TicketFault.TheVariants.{NoMemory};

    ghost from_gives = { λ _ fault. fault ≡ NoMemory };

    fn from(_: AllocError) -> TicketFault {
        TicketFault::NoMemory
    }
}
