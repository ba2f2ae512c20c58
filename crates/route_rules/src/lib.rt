//! What the name of a server means to a realm, what that realm aims at for it, and what a cross-realm ticket may tell it
//! (RFC 4120, sections 2.7, 3.3.3, 6.2 and 7.3).
#![tactic(auto)]

mod aim;
mod cross;
mod laws;
mod meaning;
mod requestor;
mod services;

pub use aim::{resolve, resolve_account};
pub use cross::cross_ok;
pub use laws::{names_keep_laws, requestors_are_accounts};
pub use meaning::enterprise_pieces;
pub use requestor::requestor_account;
