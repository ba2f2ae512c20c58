//! Ordered indexes: from a text or a number to what is known of it.
#![tactic(auto)]

mod number_index;
mod number_set;
mod pair_index;
mod text_index;

pub use number_index::NumberIndex;
pub use number_set::NumberSet;
pub use pair_index::PairIndex;
pub use text_index::TextIndex;
