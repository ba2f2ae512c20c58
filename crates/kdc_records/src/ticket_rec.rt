//! A ticket as a record.
use crate::holder::Holder;
use crate::subject::{Delegation, Subject};
use krb_names::{KTime, Key, Principal, Texts};

/// What a ticket says.
///
/// The subject is the user that the ticket's PAC speaks of, the client the ticket's cname in its crealm. They differ in
/// referrals of S4U alone, where the client is the service that asked.
#[derive(Debug, Drop)]
pub struct TicketRec {
    /// Whose key it is sealed with.
    pub holder: Holder,
    /// cname in crealm.
    pub client: Principal,
    /// The user.
    pub subject: Subject,
    /// TicketFlags, bit 0 the highest.
    pub flags: u32,
    /// The session key.
    pub session: Key,
    /// authtime
    pub auth: KTime,
    /// starttime; authtime where the ticket has none.
    pub start: KTime,
    /// endtime
    pub end: KTime,
    /// The realms that the client was passed on by, at most 32.
    pub transited: Texts,
    /// How it was delegated; none where the ticket was not got by S4U2proxy.
    pub delegation: Option<Delegation>,
}
