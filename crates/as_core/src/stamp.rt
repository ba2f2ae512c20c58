//! PA-ENC-TIMESTAMP as the rules see it (RFC 4120, section 5.2.7.2).
use krb_names::Moment;

/// The first padata of type 2 of a request.
#[derive(Clone, Copy, Debug, PartialEq, Eq)]
pub enum StampView {
    /// There is none.
    Absent,
    /// It is not of the key's type, does not open with it, or does not read.
    Unread,
    /// It was made at this moment.
    At(Moment),
}
