//! The lines of a text.
ghost use Rattle.std.specs.Prelude.{◌≡◌, ◌==◌, map, IfOk};
ghost use Rattle.std.specs.List.{slice_split};
ghost use Rattle.kdc_prelude.specs.Lines.{lines_of, without_last_newline};

use std::alloc::{AllocError, Global};

/// The lines of a text. Each ends with a newline, and the last one may lack it.
pub fn split_lines(alloc: Global, text: &[u8]) -> Result<Vec<&[u8]>, AllocError>
    ensures { IfOk result (λ lines. map (λ line. line.now) lines.items ≡ lines_of text.now) }
{
    if text.is_empty() {
        return Ok(Vec::new(alloc));
    }
    split_at_newlines(alloc, drop_last_newline(text))
}

fn drop_last_newline(text: &[u8]) -> &[u8]
    ensures { result.now ≡ without_last_newline text.now }
{
    match text {
        [front @ .., b'\n'] => front,
        _ => text,
    }
}

fn split_at_newlines(alloc: Global, text: &[u8]) -> Result<Vec<&[u8]>, AllocError>
    ensures { IfOk result (λ lines. map (λ line. line.now) lines.items ≡ slice_split (λ b. b == 10) text.now) }
{
    text.split(|b| *b == b'\n').collect(alloc)
}
