//! Ciphers, keys and checksums of Kerberos with AES (RFC 3961, RFC 3962), and the checksum of type -138 (RFC 4757).
#![tactic(auto)]

mod block;
mod checksum;
mod cts;
mod hmac;
mod key_derivation;
mod law;
mod n_fold;
mod password;
mod rc4;
mod sealing;
mod zeros;

pub use checksum::{is_same_sum, mac, mac_ok};
pub use cts::{cts_decrypt, cts_encrypt};
pub use hmac::{hmac_md5, hmac_sha1};
pub use key_derivation::derive;
pub use law::{cts_law, open_law};
pub use n_fold::nfold;
pub use password::string_to_key;
pub use rc4::rc4_mac;
pub use sealing::{open_in_place, seal};
pub use zeros::mac_zeroed;
