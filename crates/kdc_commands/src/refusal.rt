//! What is printed of a refused directory.
ghost use Rattle.std.specs.Prelude.{◌≡◌, IfOk};
ghost use Rattle.kdc_commands.specs.Refusals.{refusal_text};

use dir_core::DirRefusal;
use dir_records::{cause_text, push_place};
use std::alloc::{AllocError, Global};

/// The text of a refusal: its cause and its place.
pub fn refusal_text(alloc: Global, refusal: DirRefusal) -> Result<Vec<u8>, AllocError>
    ensures { IfOk result (λ text. text.items ≡ refusal_text refusal) }
{
    let mut text = String::from_str(alloc, "directory refused: ")?;
    text.push_str(cause_text(refusal.cause))?;
    text.push_str(" at ")?;
    push_place(&mut text, refusal.place)?;
    Ok(text.into_bytes())
}
