//! Names, keys, security identifiers and moments of Kerberos (RFC 4120, sections 5.2 and 6; MS-DTYP, section 2.4.2), and the lists that hold them.
#![tactic(auto)]

mod civil;
mod clock_skew;
mod decimal;
mod etype;
mod items;
mod key;
mod ktime;
mod ktime_text;
mod laws;
mod moment;
mod name_text;
mod pieces;
mod principal;
mod realm;
mod refusal;
mod sid;
mod sid_text;
mod spn;
mod text;
mod utf16;

pub use decimal::parse_decimal;
pub use etype::Etype;
pub use items::{Bytes, Items, Numbers, Signed, TryClone};
pub use key::Key;
pub use ktime::KTime;
pub use ktime_text::{ktime_read, ktime_write};
pub use laws::written_times_read;
pub use moment::Moment;
pub use name_text::{push_at_realm, push_joined, push_name, push_number, push_sid};
pub use pieces::is_name_text;
pub use principal::{Principal, parse_name};
pub use realm::{Realm, parse_realm};
pub use refusal::NameRefusal;
pub use sid::{Sid, Sids};
pub use sid_text::parse_sid;
pub use spn::{Spn, parse_spn};
pub use text::{Text, Texts};
pub use utf16::{from_utf16le, to_utf16le};
