//! Why realms make no directory, and where.
use std::alloc::AllocError;

/// Why a directory, or a change to one, is refused.
#[derive(Clone, Copy, Debug, PartialEq, Eq, thiserror::Error)]
pub enum DirCause {
    /// The text is no JSON.
    #[error("the text is no JSON")]
    NotJson,
    /// A member is missing, or there is no realm.
    #[error("a member is missing")]
    MissingField,
    /// A member has a wrong kind, range or text, or is unknown.
    #[error("a member has a wrong kind, range or text")]
    BadField,
    /// A name, number, SID, SPN, partner or entry is there already.
    #[error("a name, number or entry is there already")]
    Duplicate,
    /// Two holders have one key, or a key is spent.
    #[error("two holders have one key")]
    SameKey,
    /// A realm, account, trust or entry that is referred to is not there.
    #[error("what is referred to is not there")]
    UnknownRef,
    /// There is more of a kind than its limit.
    #[error("there is more of a kind than its limit")]
    TooMany,
    /// Memory is wanted.
    #[error("there is not enough memory")]
    NoMemory,
}

/// Where a refusal stands. A realm is counted from 0; an account or a trust of its realm, and a line, from 1.
#[derive(Clone, Copy, Debug, PartialEq, Eq)]
pub enum DirPlace {
    Whole,
    Realm(u32),
    Account(u32, u32),
    Trust(u32, u32),
    Line(u32),
}

/// A refusal: its cause and its place.
#[derive(Clone, Copy, Debug, PartialEq, Eq)]
pub struct DirRefusal {
    pub cause: DirCause,
    pub place: DirPlace,
}

impl From<AllocError> for DirCause {
    ghost use Rattle.std.specs.Prelude.{◌≡◌};
    ghost use Rattle.dir_records.specs.declared.refusal.DirCause.TheVariants.{NoMemory};

    ghost from_gives = { λ _ cause. cause ≡ NoMemory };

    fn from(_: AllocError) -> DirCause {
        DirCause::NoMemory
    }
}

impl From<AllocError> for DirRefusal {
    ghost use Rattle.std.specs.Prelude.{◌≡◌};
    ghost use Rattle.dir_records.specs.declared.refusal.DirCause.TheVariants.{NoMemory};
    ghost use Rattle.dir_records.specs.declared.refusal.DirPlace.TheVariants.{Whole};

    ghost from_gives = { λ _ refusal. refusal ≡ record { cause = NoMemory; place = Whole } };

    fn from(_: AllocError) -> DirRefusal {
        DirRefusal {
            cause: DirCause::NoMemory,
            place: DirPlace::Whole,
        }
    }
}
