//! Change lines: what changes a directory, a change a line, and batches of them, which are applied whole or not at all.
#![tactic(auto)]

mod batch;
mod fields;
mod laws;
mod line;
mod lines;

pub use batch::apply_changes;
pub use laws::batches_keep_directories;
pub use line::read_change;
pub use lines::split_lines;
