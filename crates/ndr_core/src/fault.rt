//! Why a PAC buffer could not be read.

use crate::refusal::NdrRefusal;
use std::alloc::{AllocError, AllocFailed};

/// Why a structure of a PAC could not be read.
#[derive(Debug, Drop)]
pub enum LogonFault {
    /// The bytes are not of the layout.
    Ndr(NdrRefusal),
    /// A string is not UTF-16.
    BadText,
    /// Memory ran out.
    NoMemory,
}

impl From<NdrRefusal> for LogonFault {
    ghost use Rattle.std.specs.Prelude.{◌≡◌};
    ghost use Rattle.ndr_core.specs.declared.fault.LogonFault.TheVariants.{Ndr};

    ghost from_gives = { λ refusal fault. fault ≡ Ndr refusal };

    fn from(refusal: NdrRefusal) -> LogonFault {
        LogonFault::Ndr(refusal)
    }
}

impl From<AllocError> for LogonFault {
    ghost use Rattle.std.specs.Prelude.{◌≡◌};
    ghost use Rattle.ndr_core.specs.declared.fault.LogonFault.TheVariants.{NoMemory};

    ghost from_gives = { λ _ fault. fault ≡ NoMemory };

    fn from(_: AllocError) -> LogonFault {
        LogonFault::NoMemory
    }
}

impl<T: Drop> From<AllocFailed<T>> for LogonFault {
    ghost use Rattle.std.specs.Prelude.{◌≡◌};
    ghost use Rattle.ndr_core.specs.declared.fault.LogonFault.TheVariants.{NoMemory};

    ghost from_gives = { λ _ fault. fault ≡ NoMemory };

    fn from(_: AllocFailed<T>) -> LogonFault {
        LogonFault::NoMemory
    }
}
