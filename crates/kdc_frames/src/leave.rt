//! Why a caller is left.

/// Why a caller is left before its end.
#[derive(Clone, Copy, Debug, PartialEq, Eq)]
pub enum Leave {
    /// A read or a write of it failed.
    Fault,
    /// Its bytes ended inside a frame.
    FrameCut,
    /// A frame was longer than 131,072 bytes.
    FrameTooLong,
    /// 10,000 of its requests were answered.
    Budget,
}
