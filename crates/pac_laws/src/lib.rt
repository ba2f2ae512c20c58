//! What holds of what a PAC carries (MS-PAC, sections 2.5 to 2.9): what can be written is read again, and what was read can be
//! written. These functions do nothing.
#![tactic(auto)]

mod parts;
mod texts;

pub use parts::{pac_parts_read_back, what_was_read_can_be_written};
pub use texts::utf16_keeps_laws;
