//! Tickets and what is inside them (RFC 4120, sections 5.2 and 5.3).
#![tactic(auto)]

mod auth_item;
mod enc_ticket_part;
mod encrypted_data;
mod fault;
mod host_address;
mod message;
mod name_string;
mod pac;
mod principal_name;
mod ticket;
mod transited;

pub use auth_item::{AuthItem, AuthItems};
pub use enc_ticket_part::{EncTicketPart, is_same_part, part_keeps_laws, read_part, write_part};
pub use encrypted_data::EncryptedData;
pub use fault::{Malformed, TicketFault};
pub use host_address::HostAddress;
pub use message::{Message, PlainMessage, read_message};
pub use pac::{pac_of, part_without_pac};
pub use principal_name::{PrincipalName, named, put_name, put_optional_name};
pub use ticket::{Ticket, read_ticket, ticket_keeps_laws, write_ticket};
