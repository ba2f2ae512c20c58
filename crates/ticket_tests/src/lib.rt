//! Tries of tickets made and read: one module a crate.
#![tactic(auto)]

#[cfg(test)]
mod parts;
#[cfg(test)]
mod shown;
