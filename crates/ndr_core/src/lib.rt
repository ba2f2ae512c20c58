//! NDR (C706 chapter 14, MS-RPCE, section 2.2.6): one serialized structure, read and written field by field.
#![tactic(auto)]

mod fault;
mod laws;
mod reader;
mod refusal;
mod writer;

pub use fault::LogonFault;
pub use laws::keeps_laws;
pub use reader::NdrReader;
pub use refusal::{NdrCause, NdrRefusal};
pub use writer::NdrWriter;
