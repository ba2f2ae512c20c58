//! Why a text is no name.
use std::alloc::AllocError;

/// Why a text is no name, no SID or no time, in the order in which the causes are told.
#[derive(Clone, Copy, Debug, PartialEq, Eq, thiserror::Error)]
pub enum NameRefusal {
    /// The text or a piece of it is empty.
    #[error("the text or a piece of it is empty")]
    Empty,
    /// A piece has more than 255 bytes.
    #[error("a piece has more than 255 bytes")]
    TooLong,
    /// A piece has a character that a name may not have, or the text has another form.
    #[error("the text is no name of its kind")]
    BadText,
    /// The text is no second from 1970 on.
    #[error("the text is no second from 1970 on")]
    BadTime,
    /// Memory is wanted.
    #[error("there is not enough memory")]
    NoMemory,
}

impl From<AllocError> for NameRefusal {
    ghost use Rattle.std.specs.Prelude.{◌≡◌};
    ghost use Rattle.krb_names.specs.declared.refusal.NameRefusal.TheVariants.{NoMemory};

    ghost from_gives = { λ _ refusal. refusal ≡ NoMemory };

    fn from(_: AllocError) -> NameRefusal {
        NameRefusal::NoMemory
    }
}
