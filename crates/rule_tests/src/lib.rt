//! Tries of directories, their texts and changes, and of rules: one module a crate.
#![tactic(auto)]

#[cfg(test)]
mod as_requests;
#[cfg(test)]
mod changes;
#[cfg(test)]
mod directories;
#[cfg(test)]
mod routes;
#[cfg(test)]
mod texts;
