//! What holds between a client, the KDC and the service that the client comes to.
#![tactic(auto)]

mod laws;

pub use laws::{ends_law, replies_open};
