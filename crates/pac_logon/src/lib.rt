//! The logon information of a PAC (MS-PAC, section 2.5).
#![tactic(auto)]

mod extra;
mod laws;
mod logon_info;
mod members;
mod referents;

pub use laws::keeps_laws;
pub use logon_info::{LogonInfo, Subject4, read_logon, write_logon};
