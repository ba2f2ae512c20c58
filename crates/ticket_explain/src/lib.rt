//! What is printed of a ticket (RFC 4120, section 5.3).
#![tactic(auto)]

mod explanation;
mod fault;
mod holders;
mod lines;
mod words;

pub use explanation::explain;
pub use fault::ExplainFault;
