//! Tries of the program's commands over devices in memory.
#![tactic(auto)]

#[cfg(test)]
mod runs;
