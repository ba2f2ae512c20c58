//! Why bytes do not read.
ghost use Rattle.std.specs.Prelude.{◌≡◌, ◌<◌, ◌^◌};

/// What is wrong.
#[derive(Clone, Copy, Debug, PartialEq, Eq)]
pub enum DerCause {
    /// The bytes end too early; the place is their end.
    Truncated,
    /// Another tag byte than the one that is asked for.
    WrongTag,
    /// A length in a form that DER does not have, a content of a length that its type does not have, or a number out of its range.
    LengthForm,
    /// A length or an integer in more bytes than it needs.
    NotMinimal,
    /// Bytes after the last element.
    Trailing,
    /// A string, time or name that breaks the rules of its type.
    BadText,
}

/// The first fault, and its place: a count of bytes from the start of the outermost input.
#[derive(Clone, Copy, Debug, PartialEq, Eq)]
pub struct DerRefusal {
    pub cause: DerCause,
    pub place: u32,
}

/// The refusal with this cause and place.
pub fn refuse(cause: DerCause, place: usize) -> DerRefusal
    requires { place < 2 ^ 32 }
    ensures { result ≡ record { cause = cause; place = place } }
{
    DerRefusal {
        cause,
        place: place as u32,
    }
}
