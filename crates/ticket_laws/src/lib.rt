//! What holds of the tickets that a KDC makes (RFC 4120, sections 5.2 and 5.3).
#![tactic(auto)]

mod only_pac;
mod part;
mod ticket;

pub use only_pac::lone_pac_keeps_laws;
pub use part::writable_parts_keep_laws;
pub use ticket::writable_tickets_keep_laws;
