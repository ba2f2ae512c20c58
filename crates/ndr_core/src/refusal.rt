//! Why bytes are not of a layout.

/// What is wrong.
#[derive(Clone, Copy, Debug, PartialEq, Eq)]
pub enum NdrCause {
    /// A field passes the end of the object.
    Truncated,
    /// The header is not that of a serialized structure.
    BadHeader,
    /// A count, a length or a revision is not what it has to be.
    BadCount,
    /// A count is above its limit.
    TooMany,
    /// Bytes are left behind the last field.
    Trailing,
}

/// The first fault, and how many bytes stand before it.
#[derive(Clone, Copy, Debug, PartialEq, Eq)]
pub struct NdrRefusal {
    pub cause: NdrCause,
    pub place: u32,
}
