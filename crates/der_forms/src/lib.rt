//! Types in DER: fields and lists (X.690, sections 8.9 and 8.10), and what each type of a message gives for its reading and writing.
#![tactic(auto)]

mod choice;
mod default;
mod fields;
mod form;
mod kept;
mod key;
mod list;
mod message;
mod read_fault;
mod realm;
mod sequence;
mod time;
mod value;

pub use choice::{Choice, put_choice, read_choice};
pub use default::{optional_or, put_unless};
pub use fields::{
    field, number_field, optional, optional_list, put_field, put_list, put_number, put_optional,
};
pub use form::{Form, Sequence};
pub use kept::{kept_field, put_kept};
pub use list::{put_items, read_items};
pub use message::{keeps_laws, read, write};
pub use read_fault::ReadFault;
pub use sequence::{put_sequence, put_tagged, read_sequence, read_tagged};
pub use time::{MomentTime, bare_time, each_time};
pub use value::{Flags, Micros, Nonce, bare_micros, each_micros};
