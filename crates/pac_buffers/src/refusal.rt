//! Why bytes are no PAC.

/// Why bytes are no PAC, in the order in which the causes are told.
#[derive(Clone, Copy, Debug, PartialEq, Eq)]
pub enum PacRefusal {
    /// The header, the list or a buffer leaves the bytes.
    Truncated,
    /// A buffer does not start at a multiple of 8.
    Misaligned,
    /// A buffer shares a byte with the header, the list or another buffer.
    Overlap,
    /// This type is listed twice.
    Twice(u32),
    /// No buffer of this type is listed.
    Missing(u32),
}
