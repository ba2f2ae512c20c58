//! The client's end of Kerberos exchanges with S4U: requests, and how their replies are judged (RFC 4120, section 3; MS-SFU, section
//! 3.1.5).
#![tactic(auto)]

mod begin;
mod body;
mod compare;
mod cred;
mod fault;
mod finishing;
mod laws;
mod names;
mod parts;
mod random;
mod service;
mod texts;
mod user;

pub use begin::{begin_as, begin_proxy, begin_self, begin_tgs};
pub use cred::{Begun, Cred, Pending, Want};
pub use fault::{Field, FinishFault};
pub use finishing::finish;
pub use laws::requests_read_back;
pub use service::begin_ap;
