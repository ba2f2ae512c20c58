//! Why a line gives nothing.
use hex::FromHexError;
use std::alloc::AllocError;

/// What is wrong with a line, or with the machine that reads it.
#[derive(Clone, Copy, Debug, PartialEq, Eq)]
pub enum LineFault {
    /// It is none of the lines of a run.
    Unread,
    /// Memory is wanted.
    NoMemory,
}

impl From<AllocError> for LineFault {
    ghost use Rattle.std.specs.Prelude.{◌≡◌};
    ghost use Rattle.kdc_replay.specs.declared.fault.LineFault.TheVariants.{NoMemory};

    ghost from_gives = { λ _ fault. fault ≡ NoMemory };

    fn from(_: AllocError) -> LineFault {
        LineFault::NoMemory
    }
}

impl From<FromHexError> for LineFault {
    ghost use Rattle.std.specs.Prelude.{◌≡◌, ◌↔◌};
    ghost use Rattle.hex.specs.declared.error.FromHexError.TheVariants.{OutOfMemory};
    ghost use Rattle.kdc_replay.specs.declared.fault.LineFault.TheVariants.{NoMemory};

    ghost from_gives = { λ error fault. (fault ≡ NoMemory) ↔ (error ≡ OutOfMemory) };

    fn from(error: FromHexError) -> LineFault {
        match error {
            FromHexError::OutOfMemory => LineFault::NoMemory,
            _ => LineFault::Unread,
        }
    }
}
