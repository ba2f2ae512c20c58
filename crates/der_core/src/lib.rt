//! DER (X.690): a reader over a slice, a writer, and the forms of single values.
#![tactic(auto)]

mod bit_string;
mod integer;
mod laws;
mod length;
mod reader;
mod refusal;
mod writer;

pub use laws::single_values_keep_laws;
pub use reader::Reader;
pub use refusal::{DerCause, DerRefusal};
pub use writer::Writer;
