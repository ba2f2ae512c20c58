//! What a ticket says, apart from its bytes (RFC 4120, section 5.3; MS-PAC, sections 2.5 and 2.9; MS-SFU, section 3.2.5.2), what a request asks for, and the
//! rules by which it is judged.
#![tactic(auto)]

mod bits;
mod decision;
pub mod error_code;
mod holder;
pub mod kdc_option;
mod laws;
mod rule;
mod subject;
pub mod ticket_flag;
mod ticket_rec;
mod wish;
mod wish_rules;

pub use bits::{bit_if, has_bit};
pub use decision::{Aim, Decision, Terms};
pub use holder::Holder;
pub use laws::parties_keep_laws;
pub use rule::{Rule, require};
pub use subject::{Delegation, Subject, is_user};
pub use ticket_rec::TicketRec;
pub use wish::{Branch, Wish};
pub use wish_rules::{are_clear, end_by, end_is_later, session_type, start_is_now};
