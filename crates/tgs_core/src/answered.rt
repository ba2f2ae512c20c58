//! What a request is answered, and what is noted of it.
use kdc_records::{Branch, Rule};
use krb_names::Bytes;

/// How a request came out: how it asked, where that is known, and the first rule that fails, if one does.
#[derive(Clone, Copy, Debug, PartialEq, Eq)]
pub struct Note {
    /// None where one of U1 to U4 denies the request.
    pub branch: Option<Branch>,
    /// None where a ticket is granted.
    pub rule: Option<Rule>,
}

/// The reply to a request, and its note.
#[derive(Debug, Drop)]
pub struct Answered {
    /// An AS-REP or a TGS-REP, or a KRB-ERROR (RFC 4120, sections 5.4.2 and 5.9.1).
    pub reply: Bytes,
    pub note: Note,
}
