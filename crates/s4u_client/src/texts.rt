//! Names and numbers in words.
ghost use Rattle.std.specs.Prelude.{◌≡◌, IfOk};
ghost use Rattle.std.specs.Fmt.{signed_decimal};
ghost use Rattle.krb_names.specs.NameTexts.{name_text};

use itoa::Buffer;
use krb_names::{Principal, Text, push_name};
use std::alloc::{AllocError, Global};

/// A name as `PART/PART@REALM`.
pub(crate) fn name_text(alloc: Global, name: &Principal) -> Result<Text, AllocError>
    ensures { IfOk result (λ text. text ≡ name_text name.now) }
{
    let mut text = String::new(alloc);
    push_name(&mut text, name)?;
    Ok(Text::from_string(text))
}

/// A number in decimal digits, with `-` before them below 0.
pub(crate) fn number_text(alloc: Global, number: i64) -> Result<Text, AllocError>
    ensures { IfOk result (λ text. text ≡ signed_decimal number) }
{
    let mut buffer = Buffer::new();
    Text::copy(alloc, buffer.format(number))
}
