//! AES (FIPS 197): the key expansion, and one block in either direction.
#![tactic(auto)]

mod block;
mod columns;
mod key_expansion;
mod key_schedule;
mod law;
mod tables;

pub use block::{decrypt_block, encrypt_block};
pub use key_schedule::KeySchedule;
pub use law::inverse_law;
