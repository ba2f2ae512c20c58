//! Tickets: made of a record, opened where they are shown, and read as the record that they were made of (RFC 4120,
//! section 5.3; MS-PAC; MS-SFU, section 3.2.5).
#![tactic(auto)]

mod bytes;
mod fault;
mod holder;
mod holding;
mod laws;
mod making;
mod opening;
mod presenting;
mod role;

pub use fault::{OpenFault, ShowFault, Unopened};
pub use holding::{Holding, aim_holding, find_trust};
pub use laws::tickets_keep_laws;
pub use making::make_ticket;
pub use opening::{Opened, open_held, unseal};
pub use presenting::{Certified, certify, present};
pub use role::Role;
pub use ticket_parts::record_law;
