//! The service end: an AP-REQ is accepted or refused by the rules of a service, with a memory of what was accepted (RFC 4120, section 3.2.3;
//! MS-PAC, section 2.8).
#![tactic(auto)]

mod accepting;
mod judging;
mod laws;
mod opening;
mod pac;
mod refusal;
mod replying;
mod seen;
mod service;
mod shown;
mod times;

pub use accepting::accept;
pub use laws::nothing_repeats;
pub use refusal::AcceptRule;
pub use seen::{Seen, SeenEntry};
pub use service::{Accepted, ServiceKeys};
