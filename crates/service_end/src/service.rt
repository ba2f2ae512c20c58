//! A service, and what it accepts.

use krb_names::{Bytes, Key, Principal, Sid, Texts};

/// The keys of a service.
#[derive(Debug, Drop)]
pub struct ServiceKeys {
    /// The service's account, whose realm issues its tickets.
    pub account: Principal,
    pub key: Key,
    /// The key's version.
    pub version: u32,
}

/// What a service learns of one whom it accepts.
#[derive(Debug, Drop)]
pub struct Accepted {
    /// The ticket's client.
    pub client: Principal,
    /// The user in the ticket's PAC.
    pub sid: Sid,
    /// The services that delegated, in their order; none where the PAC has no delegation information.
    pub services: Texts,
    /// An AP-REP, where mutual authentication is asked for.
    pub reply: Option<Bytes>,
}
