//! The rules of S4U2proxy, and what a request for it is granted (MS-SFU, section 3.2.5.2).
#![tactic(auto)]

mod decide;
mod delegation_rules;
mod evidence;
mod evidence_rules;
mod grant;
mod law;
mod parties;

pub use decide::decide_proxy;
pub use evidence::EvidenceView;
pub use grant::delegation_made;
pub use law::{delegations_can_be_written, granted_delegations_keep_rules};
