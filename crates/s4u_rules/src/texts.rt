//! Names of principals beside texts: the name of a ticket's user, and the names that a delegation has (MS-PAC, section 2.9).
//! Takes no memory.
ghost use Rattle.std.specs.Prelude.{◌≡◌, ◌≢◌, ◌++◌, ℕ, List, MatchOption};
ghost use Rattle.std.specs.List.{join_with_byte};
ghost use Rattle.kdc_prelude.specs.Texts.{same_text};
ghost use Rattle.krb_names.specs.NameTexts.{name_text};

use krb_names::{Principal, Text};

/// What follows a front that the text begins with.
fn strip<'a>(text: &'a [u8], front: &str) -> Option<&'a [u8]>
    ensures { MatchOption result ((rest : List ℕ) → text.now ≢ front.now ++ rest) (λ rest. text.now ≡ front.now ++ rest.now) }
{
    text.strip_prefix(front.as_bytes())
}

/// What follows the parts, joined by `/`, that the text begins with.
fn strip_joined<'a>(text: &'a [u8], parts: &[Text]) -> Option<&'a [u8]>
    ensures { MatchOption result ((rest : List ℕ) → text.now ≢ join_with_byte 47 parts.now ++ rest) (λ rest. text.now ≡ join_with_byte 47 parts.now ++ rest.now) }
{
    match parts {
        [] => Some(text),
        [part] => strip(text, part.as_str()),
        [part, others @ ..] => {
            let behind_part = strip(text, part.as_str())?;
            let behind_slash = strip(behind_part, "/")?;
            strip_joined(behind_slash, others)
        }
    }
}

/// Whether the text is the parts, joined by `/`.
pub fn is_joined(text: &str, parts: &[Text]) -> bool
    ensures { result ≡ same_text text.now (join_with_byte 47 parts.now) }
{
    match strip_joined(text.as_bytes(), parts) {
        Some(rest) => rest.is_empty(),
        None => false,
    }
}

/// Whether the text is the name, `NAME@REALM`.
pub fn is_name_text(name: &Principal, text: &str) -> bool
    ensures { result ≡ same_text (name_text name.now) text.now }
{
    let Some(behind_name) = strip_joined(text.as_bytes(), name.parts.as_slice()) else {
        return false;
    };
    match strip(behind_name, "@") {
        Some(realm) => realm == name.realm.as_str().as_bytes(),
        None => false,
    }
}
