//! The pieces of names: texts that stand alone or are joined by `@` and `/`.
ghost use Rattle.std.specs.Prelude.{◌≡◌, map, [], ◌∷◌, true};
ghost use Rattle.std.specs.List.{list_any};
ghost use Rattle.krb_names.specs.Pieces.{fault_of, has_forbidden, is_empty, is_long, is_name};

use crate::refusal::NameRefusal;

/// Whether a text may stand in a name: 1 to 255 bytes of UTF-8, none of them a control character, a space, `@`, `/` or `,`.
pub fn is_name_text(text: &str) -> bool
    ensures { result ≡ is_name text.now }
{
    find_fault(&[text], true).is_none()
}

/// The first cause for which these pieces are no name, where `fits` tells whether they are as many as they should be.
pub(crate) fn find_fault(pieces: &[&str], fits: bool) -> Option<NameRefusal>
    ensures { result ≡ fault_of (map (λ piece. piece.now) pieces.now) fits }
{
    if any_empty(pieces) {
        Some(NameRefusal::Empty)
    } else if any_long(pieces) {
        Some(NameRefusal::TooLong)
    } else if !fits || any_forbidden(pieces) {
        Some(NameRefusal::BadText)
    } else {
        None
    }
}

fn any_empty(pieces: &[&str]) -> bool
    ensures { result ≡ list_any is_empty (map (λ piece. piece.now) pieces.now) }
{
    pieces.iter().any(|piece| piece.is_empty())
}

fn any_long(pieces: &[&str]) -> bool
    ensures { result ≡ list_any is_long (map (λ piece. piece.now) pieces.now) }
{
    pieces.iter().any(|piece| piece.len() > 255)
}

fn any_forbidden(pieces: &[&str]) -> bool
    ensures { result ≡ list_any has_forbidden (map (λ piece. piece.now) pieces.now) }
{
    pieces.iter().any(|piece| contains_forbidden(piece))
}

fn contains_forbidden(piece: &str) -> bool
    ensures { result ≡ has_forbidden piece.now }
{
    piece.chars().any(|c| c <= ' '
        || ('\u{7f}'..='\u{9f}').contains(&c)
        || c == '@'
        || c == '/'
        || c == ',')
}
