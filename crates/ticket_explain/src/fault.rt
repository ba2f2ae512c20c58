//! Why a ticket is not explained.

use dir_core::Rule;
use std::alloc::AllocError;

/// Why a ticket is not explained.
#[derive(Clone, Copy, Debug, PartialEq, Eq)]
pub enum ExplainFault {
    /// The first rule that refuses it.
    Deny(Rule),
    /// Memory is wanted.
    NoMemory,
}

impl From<AllocError> for ExplainFault {
    ghost use Rattle.std.specs.Prelude.{◌≡◌};
    ghost use Rattle.ticket_explain.specs.declared.fault.ExplainFault.TheVariants.{NoMemory};

    ghost from_gives = { λ _ fault. fault ≡ NoMemory };

    fn from(_: AllocError) -> ExplainFault {
        ExplainFault::NoMemory
    }
}
