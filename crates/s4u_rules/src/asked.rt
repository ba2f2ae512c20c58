//! What a question about delegation is answered.
use dir_core::Rule;

/// What a question is answered: a ticket that is forwardable, a ticket that is not, or the first rule that denies it.
#[derive(Clone, Copy, Debug, PartialEq, Eq)]
pub enum Asked {
    Forwardable,
    Allowed,
    Deny(Rule),
}
