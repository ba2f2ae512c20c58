//! Tries of messages, tickets and PACs as bytes: one module a crate.
#![tactic(auto)]

#[cfg(test)]
mod buffers;
#[cfg(test)]
mod der;
#[cfg(test)]
mod logon;
#[cfg(test)]
mod messages;
#[cfg(test)]
mod ndr;
#[cfg(test)]
mod padata;
#[cfg(test)]
mod signatures;
#[cfg(test)]
mod tickets;
