//! The rules of an AS-REQ, and what it is granted (RFC 4120, section 3.1.3).
#![tactic(auto)]

mod as_rules;
mod decide;
mod law;
mod request;
mod stamp;
mod timestamp;

pub use decide::{client_account, decide_as};
pub use law::granted_requests_keep_rules;
pub use request::{as_wish, judge_as};
pub use stamp::StampView;
pub use timestamp::stamp_of;
