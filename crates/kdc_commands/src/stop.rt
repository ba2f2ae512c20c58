//! Why a command ended early.
use kb_base::DeviceFault;
use std::alloc::AllocError;

/// What ended a command early.
#[derive(Clone, Copy, Debug, PartialEq, Eq)]
pub enum Stop {
    /// Memory is wanted.
    NoMemory,
    /// The directory's text, or a caller's bytes, can't be read.
    Reading,
    /// No caller can be accepted.
    Accepting,
}

impl Stop {
    ghost use Rattle.std.specs.Prelude.{◌≡◌, ◌≢◌, true};
    ghost use Rattle.kdc_commands.specs.Outcomes.{is_fault};
    ghost use Rattle.kdc_commands.specs.Stops.{status_of};

    /// The program's status.
    pub fn status(self) -> u8
        ensures value { result ≡ status_of self }
        ensures fault { is_fault result ≡ true }
        ensures not_writing { result ≢ 6 }
        ensures not_refused { result ≢ 4 }
    {
        match self {
            Stop::NoMemory => 3,
            Stop::Reading => 5,
            Stop::Accepting => 9,
        }
    }
}

impl From<AllocError> for Stop {
    ghost use Rattle.std.specs.Prelude.{◌≡◌};
    ghost use Rattle.kdc_commands.specs.declared.stop.Stop.TheVariants.{NoMemory};

    ghost from_gives = { λ _ stop. stop ≡ NoMemory };

    fn from(_: AllocError) -> Stop {
        Stop::NoMemory
    }
}

impl From<DeviceFault> for Stop {
    ghost use Rattle.std.specs.Prelude.{◌≡◌};
    ghost use Rattle.kdc_commands.specs.Stops.{stop_of};

    ghost from_gives = { λ fault stop. stop ≡ stop_of fault };

    fn from(fault: DeviceFault) -> Stop {
        match fault {
            DeviceFault::Failed => Stop::Reading,
            DeviceFault::NoMemory => Stop::NoMemory,
        }
    }
}
