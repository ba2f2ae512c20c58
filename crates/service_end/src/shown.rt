//! What an AP-REQ shows.

use krb_messages::Authenticator;
use krb_tickets::EncTicketPart;
use ticket_parts::PacValue;

/// The ticket and the authenticator of an AP-REQ, opened.
#[derive(Debug, Drop)]
pub(crate) struct Shown {
    /// Mutual authentication is asked for.
    pub mutual_required: bool,
    /// What was sealed in the ticket.
    pub part: EncTicketPart,
    /// What the session key opened.
    pub auth: Authenticator,
}

/// The same, where no rule of a message by itself fails.
#[derive(Debug, Drop)]
pub(crate) struct Judged {
    pub shown: Shown,
    /// What the ticket's PAC says.
    pub pac: PacValue,
}
