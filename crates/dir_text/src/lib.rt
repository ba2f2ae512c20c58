//! The text of a directory in JSON (RFC 8259): the members of its realms, accounts and trusts, and the first fault with its place. Beside it stand the lines that change a directory.
#![tactic(auto)]

mod account;
mod key;
mod lists;
mod members;
mod read;
mod realm;
mod trust;
mod values;

pub use change_lines::apply_changes;
pub use read::read_directory;
