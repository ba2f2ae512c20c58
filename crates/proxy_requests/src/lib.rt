//! The evidence of a request for S4U2proxy as it is read: its additional ticket (MS-SFU, section 3.2.5.2).
#![tactic(auto)]

mod evidence;
mod law;
mod reading;
mod requestor;

pub use evidence::{Evidence, evidence_view};
pub use law::read_evidences_keep_rules;
pub use reading::read_evidence;
