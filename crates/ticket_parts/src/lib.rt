//! What is sealed in a ticket, made of a record and read as one: an EncTicketPart (RFC 4120, section 5.3) with a signed PAC
//! (MS-PAC).
#![tactic(auto)]

mod laws;
mod making;
mod pac_reading;
mod pac_values;
mod reading;

pub use laws::{part_law, read_law, record_law, signatures_law};
pub use making::make_part;
pub use pac_reading::read_pac;
pub use pac_values::PacValue;
pub use reading::{ReadRecord, read_record};
