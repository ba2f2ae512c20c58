//! What holds of every history of exchanges: how each ticket goes back to the first grant of its user.
#![tactic(auto)]

mod laws;
mod runs;

pub use laws::chain_law;
pub use runs::runs_keep_chains;
