//! Which signature is wrong.

/// The first signature that is wrong: missing, of another type than its key's, or another one.
#[derive(Clone, Copy, Debug, PartialEq, Eq)]
pub enum SignFault {
    /// The server signature.
    Server,
    /// The signature of the key distribution centre.
    Kdc,
    /// The ticket signature.
    Ticket,
}
