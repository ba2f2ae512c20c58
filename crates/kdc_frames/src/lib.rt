//! Frames of a caller's bytes (RFC 4120, section 7.2.2), the exchanges of a run, made from lists alone, and their notes.
#![tactic(auto)]

mod frame;
mod leave;
mod notes;
mod read;
mod send;

pub use frame::{Frame, Request};
pub use leave::Leave;
pub use notes::{push_leave, push_note, push_refusal};
pub use read::read_frame;
pub use send::send_frame;
