//! The directory of a KDC: its realms, accounts and trusts (MS-SFU, "Abstract Data Model"; MS-PAC), and the rules by which it judges (RFC 4120).
#![tactic(auto)]

mod account_edits;
mod allowed;
mod directory;
mod indexes;
mod laws;
mod lookups;
mod realm_edits;
mod spn_index;
mod taken;

pub use dir_records::{
    Account, Accounts, Change, Contents, DirCause, DirPlace, DirRefusal, KeyRec, Mark, RealmRec,
    SpentNumber, Trust, Trusts, is_account_name, is_service_name,
};
pub use directory::Directory;
pub use kdc_records::{
    Aim, Branch, Decision, Delegation, Holder, Rule, Subject, Terms, TicketRec, Wish, error_code,
};
pub use laws::{
    changes_have_causes, changes_keep_directories, edits_by_parts, only_limits_are_left,
};
pub use lookups::has_text;
