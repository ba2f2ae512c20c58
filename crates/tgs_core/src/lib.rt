//! The answer to a request: a ticket exactly where the rules allow one, or the first failing rule's error (RFC 4120, section 3).
#![tactic(auto)]

mod account;
mod answered;
mod answering;
mod echo;
mod error;
mod grant;
mod grounds;
mod initial;
mod laws;
mod random;
mod reply;
mod reply_key;
mod request;
mod rules_laws;
mod tgs;
mod tgs_read;
mod ticket_name;

pub use answered::{Answered, Note};
pub use answering::{answer, answer_long};
pub use laws::grants_keep_laws;
pub use rules_laws::verdicts_keep_laws;
