//! A KDC's run over callers: their frames are read, the changes taken, the requests answered, and notes written.
#![tactic(auto)]

mod caller;
mod changes;
mod notes;
mod reply;
mod request;
mod run;
mod served;
mod turn;

pub use run::serve;
pub use served::{RunFault, Served};
