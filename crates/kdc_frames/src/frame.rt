//! What a caller's bytes begin with.
use krb_names::Bytes;

/// What a caller's bytes begin with.
#[derive(Debug, Drop)]
pub enum Frame {
    /// Nothing more: the caller's bytes end.
    End,
    /// Less than a whole frame, after which the caller's bytes end.
    Cut,
    /// A request.
    Next(Request),
}

/// A request of a caller.
#[derive(Debug, Drop)]
pub enum Request {
    /// The message of a whole frame, of at most 131,072 bytes.
    Whole(Bytes),
    /// A head that says more than 131,072 bytes.
    TooLong,
}
