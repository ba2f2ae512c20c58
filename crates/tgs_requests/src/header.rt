//! The header of a TGS-REQ (RFC 4120, sections 3.3.2 and 5.5.1).
use krb_messages::Authenticator;
use ticket_codec::{Certified, Opened};

/// The ticket-granting ticket of a request, and its authenticator.
#[derive(Debug, Drop)]
pub struct Header {
    /// What was sealed in the ticket.
    pub opened: Opened,
    /// What the session key opened.
    pub auth: Authenticator,
    /// The ticket's record; None where its PAC does not read or a signature is wrong.
    pub certified: Option<Certified>,
}
