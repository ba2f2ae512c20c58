//! Parts of a ticket and its record in words. Each call adds to the end of a text.
ghost use Rattle.std.specs.Prelude.{◌≡◌, ◌++◌, ◌<◌, ◌∷◌, [], if◌then◌else◌, IfOk, OnOk, string_bytes};
ghost use Rattle.std.specs.Str.{IsAscii};
ghost use Rattle.kdc_records.specs.Bits.{has_bit};
ghost use Rattle.ticket_explain.specs.Words.{delegation_text, flag_names, kvno_text, listed, time_text};

use kdc_records::{Delegation, has_bit, ticket_flag};
use krb_names::{KTime, Text, Texts, ktime_write, push_joined, push_number};
use std::alloc::{AllocError, Global};

/// A key version, or `-`.
pub(crate) fn push_kvno(text: &mut String, kvno: Option<u32>) -> Result<(), AllocError>
    ensures { OnOk result (string_bytes text.new ≡ string_bytes text.old ++ kvno_text kvno) }
{
    match kvno {
        None => text.push_str("-"),
        Some(kvno) => push_number(text, u64::from(kvno)),
    }
}

/// The texts with a separator between each two, or `-`.
pub(crate) fn push_listed(
    text: &mut String,
    separator: char,
    texts: &[Text],
) -> Result<(), AllocError>
    requires { separator < 128 }
    ensures { OnOk result (string_bytes text.new ≡ string_bytes text.old ++ listed separator texts.now) }
{
    if texts.is_empty() {
        text.push_str("-")
    } else {
        push_joined(text, separator, texts)
    }
}

/// `YYYYMMDDHHMMSSZ`.
pub(crate) fn push_time(text: &mut String, time: KTime) -> Result<(), AllocError>
    ensures { OnOk result (string_bytes text.new ≡ string_bytes text.old ++ time_text time) }
{
    push_ascii(text, &ktime_write(time))
}

fn push_ascii(text: &mut String, bytes: &[u8]) -> Result<(), AllocError>
    requires { IsAscii bytes.now }
    ensures { OnOk result (string_bytes text.new ≡ string_bytes text.old ++ bytes.now) }
{
    for byte in bytes {
        text.push(char::from(*byte))?;
    }
    Ok(())
}

/// The names of the flags that are set, of those that are told.
pub(crate) fn flag_names(alloc: Global, flags: u32) -> Result<Texts, AllocError>
    ensures { IfOk result (λ names. names ≡ flag_names flags) }
{
    let mut names = Texts::new(alloc);
    add_flag(
        alloc,
        &mut names,
        flags,
        ticket_flag::FORWARDABLE,
        "forwardable",
    )?;
    add_flag(alloc, &mut names, flags, ticket_flag::INITIAL, "initial")?;
    add_flag(
        alloc,
        &mut names,
        flags,
        ticket_flag::PRE_AUTHENT,
        "pre-authent",
    )?;
    Ok(names)
}

/// Adds the name of a flag, where it is set.
fn add_flag(
    alloc: Global,
    names: &mut Texts,
    flags: u32,
    bit: u32,
    name: &str,
) -> Result<(), AllocError>
    requires { bit < 32 }
    ensures { OnOk result (names.new ≡ names.old ++ (if has_bit bit flags then name.now ∷ [] else [])) }
{
    if has_bit(flags, bit) {
        names.push(Text::copy(alloc, name)?)?;
    }
    Ok(())
}

/// `TARGET via S1 S2`, or `-`.
#[tactic(auto, unfolding(crate::specs::Words::delegation_text))]
pub(crate) fn push_delegation(
    text: &mut String,
    delegation: &Option<Delegation>,
) -> Result<(), AllocError>
    ensures { OnOk result (string_bytes text.new ≡ string_bytes text.old ++ delegation_text delegation.now) }
{
    match delegation {
        None => text.push_str("-"),
        Some(delegation) => {
            text.push_str(delegation.target.as_str())?;
            text.push_str(" via ")?;
            push_listed(text, ' ', delegation.services.as_slice())
        }
    }
}
