//! What a device answers in place of an outcome.
use std::alloc::AllocError;

/// The device failed. Its count of faults rose.
#[derive(Clone, Copy, Debug, PartialEq, Eq)]
pub struct Failed;

/// Why a call of a device that may take memory gave nothing.
#[derive(Clone, Copy, Debug, PartialEq, Eq)]
pub enum DeviceFault {
    /// The device failed. Its count of faults rose.
    Failed,
    /// Memory is wanted. No count rose.
    NoMemory,
}

impl From<AllocError> for DeviceFault {
    ghost use Rattle.std.specs.Prelude.{◌≡◌};
    ghost use Rattle.kb_base.specs.declared.fault.DeviceFault.TheVariants.{NoMemory};

    ghost from_gives = { λ _ fault. fault ≡ NoMemory };

    fn from(_: AllocError) -> DeviceFault {
        DeviceFault::NoMemory
    }
}
