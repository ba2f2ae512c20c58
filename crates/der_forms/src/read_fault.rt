//! Why a value could not be read.

use der_core::DerRefusal;
use std::alloc::AllocError;

/// Why a value could not be read.
#[derive(Debug, Drop)]
pub enum ReadFault {
    /// The bytes are not of the form.
    Refused(DerRefusal),
    /// Memory is wanted.
    NoMemory,
}

impl From<DerRefusal> for ReadFault {
    ghost use Rattle.std.specs.Prelude.{◌≡◌};
    ghost use Rattle.der_forms.specs.declared.read_fault.ReadFault.TheVariants.{Refused};

    ghost from_gives = { λ refusal fault. fault ≡ Refused refusal };

    fn from(refusal: DerRefusal) -> ReadFault {
        ReadFault::Refused(refusal)
    }
}

impl From<AllocError> for ReadFault {
    ghost use Rattle.std.specs.Prelude.{◌≡◌};
    ghost use Rattle.der_forms.specs.declared.read_fault.ReadFault.TheVariants.{NoMemory};

    ghost from_gives = { λ _ fault. fault ≡ NoMemory };

    fn from(_: AllocError) -> ReadFault {
        ReadFault::NoMemory
    }
}
