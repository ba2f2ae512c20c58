//! The rules of S4U2self and S4U2proxy (MS-SFU, sections 3.2.5.1 and 3.2.5.2).
#![tactic(auto)]

mod asked;
mod classic_question;
mod conditions;
mod decide;
mod header;
mod header_rules;
mod header_verdict;
mod issuer;
mod laws;
mod self_question;
mod self_rules;
mod self_user;
mod texts;

pub use asked::Asked;
pub use classic_question::ask_classic;
pub use decide::{decide_self, decide_tgs};
pub use header::{HeaderView, SelfView};
pub use header_verdict::check_header;
pub use issuer::{issuer_is_appended, issuing_realm};
pub use laws::{granted_tickets_keep_rules, questions_tell_requests};
pub use self_question::ask_self;
pub use self_user::{enterprise_user, user_realm, user_record};
pub use texts::{is_joined, is_name_text};
