//! The records of a KDC's directory, the conditions that they keep (MS-SFU, "Abstract Data Model"; RFC 4120, section 6), and changes to them.
#![tactic(auto)]

mod change;
mod clones;
mod duplicates;
mod entry;
mod forms;
mod laws;
mod limits;
mod marks;
mod members;
mod ranges;
mod records;
mod references;
mod refusal;
mod refusal_text;
mod repeats;
mod well_formed;

pub use change::{Change, Mark};
pub use entry::{Entry, are_distinct, is_among};
pub use forms::{is_account_name, is_service_name};
pub use laws::well_formed_where_consistent;
pub use ranges::{InRange, keep_ranges};
pub use records::{Account, Accounts, Contents, KeyRec, RealmRec, SpentNumber, Trust, Trusts};
pub use refusal::{DirCause, DirPlace, DirRefusal};
pub use refusal_text::{cause_text, push_place};
pub use well_formed::{find_change_cause, find_refusal};
