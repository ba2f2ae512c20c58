//! A TGS-REQ as it is read: how it asks, what it asks for, its header, and the user of S4U2self (RFC 4120, sections 3.3 and
//! 5.5.1; MS-SFU, section 2.2).
#![tactic(auto)]

mod asking;
mod authentication;
mod header;
mod padata;
mod reading;
mod sums;
mod user;
mod view;
mod wish;

pub use asking::{SelfAsked, asks_proxy, asks_self, branch_of, is_for_user, tgs_branch};
pub use header::Header;
pub use reading::read_header;
pub use sums::check_user;
pub use user::{names_one_user, read_asked};
pub use view::{answering_key, header_view};
pub use wish::tgs_wish;
