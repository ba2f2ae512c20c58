//! How a run ends.
use std::alloc::AllocError;

/// A run that ended as it should: how many callers were taken in, and how many of their requests were answered.
#[derive(Clone, Copy, Debug, PartialEq, Eq)]
pub struct Served {
    pub callers: u64,
    pub requests: u64,
}

/// Why a run ended before its end.
#[derive(Clone, Copy, Debug, PartialEq, Eq, thiserror::Error)]
pub enum RunFault {
    /// Memory is wanted.
    #[error("there is not enough memory")]
    NoMemory,
    /// The notes can't be written.
    #[error("the notes can't be written")]
    Out,
    /// There are no random octets.
    #[error("there are no random octets")]
    Entropy,
    /// The changes can't be read.
    #[error("the changes can't be read")]
    Changes,
    /// No caller can be taken in.
    #[error("no caller can be taken in")]
    Door,
}

impl From<AllocError> for RunFault {
    ghost use Rattle.std.specs.Prelude.{◌≡◌};
    ghost use Rattle.kdc_run.specs.declared.served.RunFault.TheVariants.{NoMemory};

    ghost from_gives = { λ _ fault. fault ≡ NoMemory };

    fn from(_: AllocError) -> RunFault {
        RunFault::NoMemory
    }
}
