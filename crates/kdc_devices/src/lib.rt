//! The real devices behind the traits of `kb_base`: files, the standard streams, callers and a peer over TCP, the clock and the random octets of the system.
#![tactic(auto)]

mod batch;
mod file_changes;
mod file_source;
mod moments;
mod std_door;
mod std_sink;
mod std_source;
mod sys_clock;
mod sys_entropy;
mod tcp_door;
mod tcp_link;
#[cfg(test)]
mod tests;

pub use file_changes::FileChanges;
pub use file_source::FileSource;
pub use std_door::StdDoor;
pub use std_sink::StdSink;
pub use std_source::StdSource;
pub use sys_clock::SysClock;
pub use sys_entropy::SysEntropy;
pub use tcp_door::TcpDoor;
pub use tcp_link::TcpLink;
