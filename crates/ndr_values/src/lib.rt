//! Values that several PAC structures hold (MS-DTYP, sections 2.3.10 and 2.4.2).
#![tactic(auto)]

mod laws;
mod sid;
mod text;

pub use laws::keeps_laws;
pub use sid::{put_packed_sid, put_sid, read_packed_sid, read_sid};
pub use text::{StringHead, put_head, put_text, read_head, read_octets, read_text};
