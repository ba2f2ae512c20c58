//! Why a ticket shows nothing.

use dir_core::Rule;
use std::alloc::AllocError;

/// Why a ticket does not open with the key of the one for whom it is sealed.
#[derive(Clone, Copy, Debug, PartialEq, Eq)]
pub enum Unopened {
    /// It is sealed with a key of another version or type.
    WrongKey,
    /// It does not open with the key, or what was sealed does not read.
    Unreadable,
}

/// Why a ticket was not opened.
#[derive(Clone, Copy, Debug, PartialEq, Eq)]
pub enum OpenFault {
    /// It does not open.
    Unopened(Unopened),
    /// Memory is wanted.
    NoMemory,
}

impl From<AllocError> for OpenFault {
    ghost use Rattle.std.specs.Prelude.{◌≡◌};
    ghost use Rattle.ticket_codec.specs.declared.fault.OpenFault.TheVariants.{NoMemory};

    ghost from_gives = { λ _ fault. fault ≡ NoMemory };

    fn from(_: AllocError) -> OpenFault {
        OpenFault::NoMemory
    }
}

/// Why a ticket shows nothing.
#[derive(Clone, Copy, Debug, PartialEq, Eq)]
pub enum ShowFault {
    /// The first rule that fails.
    Deny(Rule),
    /// Memory is wanted.
    NoMemory,
}

impl From<AllocError> for ShowFault {
    ghost use Rattle.std.specs.Prelude.{◌≡◌};
    ghost use Rattle.ticket_codec.specs.declared.fault.ShowFault.TheVariants.{NoMemory};

    ghost from_gives = { λ _ fault. fault ≡ NoMemory };

    fn from(_: AllocError) -> ShowFault {
        ShowFault::NoMemory
    }
}
