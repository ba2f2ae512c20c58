//! Tries of names, devices and AES: one module a crate.
#![tactic(auto)]

#[cfg(test)]
mod aes;
#[cfg(test)]
mod devices;
#[cfg(test)]
mod names;
