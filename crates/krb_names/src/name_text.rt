//! Names and identifiers in words. Each call adds to the end of a text.
ghost use Rattle.std.specs.Prelude.{◌≡◌, ◌++◌, ◌<◌, decimal, OnOk, string_bytes};
ghost use Rattle.std.specs.List.{join_with_byte};
ghost use Rattle.krb_names.specs.NameTexts.{at_realm, name_text};
ghost use Rattle.krb_names.specs.SidValue.{numbers_text, sid_text};

use crate::principal::Principal;
use crate::sid::Sid;
use crate::text::Text;
use itoa::Buffer;
use std::alloc::AllocError;

/// A name, `@` and its realm.
pub fn push_at_realm(text: &mut String, name: &str, realm: &str) -> Result<(), AllocError>
    ensures { OnOk result (string_bytes text.new ≡ string_bytes text.old ++ at_realm name.now realm.now) }
{
    text.push_str(name)?;
    text.push_str("@")?;
    text.push_str(realm)
}

/// The parts joined by `/`, then `@`, then the realm.
pub fn push_name(text: &mut String, name: &Principal) -> Result<(), AllocError>
    ensures { OnOk result (string_bytes text.new ≡ string_bytes text.old ++ name_text name.now) }
{
    push_joined(text, '/', name.parts.as_slice())?;
    text.push_str("@")?;
    text.push_str(name.realm.as_str())
}

/// A number in decimal digits.
pub fn push_number(text: &mut String, number: u64) -> Result<(), AllocError>
    ensures { OnOk result (string_bytes text.new ≡ string_bytes text.old ++ decimal number) }
{
    let mut buffer = Buffer::new();
    text.push_str(buffer.format(number))
}

/// `S-1-`, the authority and the sub-authorities, joined by hyphens.
#[tactic(auto, unfolding(crate::specs::SidValue::sid_text))]
pub fn push_sid(text: &mut String, sid: &Sid) -> Result<(), AllocError>
    ensures { OnOk result (string_bytes text.new ≡ string_bytes text.old ++ sid_text sid.now) }
{
    text.push_str("S-1-")?;
    push_number(text, sid.authority())?;
    push_numbers(text, sid.numbers())
}

/// A hyphen before each number.
fn push_numbers(text: &mut String, numbers: &[u32]) -> Result<(), AllocError>
    ensures { OnOk result (string_bytes text.new ≡ string_bytes text.old ++ numbers_text numbers.now) }
{
    for number in numbers {
        text.push_str("-")?;
        push_number(text, u64::from(*number))?;
    }
    Ok(())
}

/// The texts with a separator between each two.
pub fn push_joined(text: &mut String, separator: char, texts: &[Text]) -> Result<(), AllocError>
    requires { separator < 128 }
    ensures { OnOk result (string_bytes text.new ≡ string_bytes text.old ++ join_with_byte separator texts.now) }
{
    let [first, others @ ..] = texts else {
        return Ok(());
    };
    text.push_str(first.as_str())?;
    for other in others {
        text.push(separator)?;
        text.push_str(other.as_str())?;
    }
    Ok(())
}
