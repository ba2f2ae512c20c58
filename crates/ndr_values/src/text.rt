//! Strings in NDR, in UTF-16LE.

ghost use Rattle.std.specs.Prelude.{◌≡◌, ◌≤◌, ◌%◌, length, OnOk};
ghost use Rattle.ndr_core.specs.Gives.{Reads, Gives};
ghost use Rattle.krb_names.specs.Utf16.{utf16le_text};
ghost use Rattle.ndr_values.specs.Texts.{string_head, text_of, octets_of, head_of};

use krb_names::{Text, from_utf16le, to_utf16le};
use ndr_core::{LogonFault, NdrReader, NdrRefusal, NdrWriter};
use std::alloc::{AllocError, Global};

/// A string where it stands: its length in bytes, and whether it points to something.
#[derive(Clone, Copy, Debug, PartialEq, Eq)]
pub struct StringHead {
    pub len: u16,
    pub there: bool,
}

/// Reads a string where it stands. A refusal may leave the reader anywhere.
pub fn read_head(from: &mut NdrReader) -> Result<StringHead, NdrRefusal>
    ensures exact { Reads (λ h. h) result from.new (string_head.reading from.old) }
{
    let len = from.u16()?;
    from.u16()?;
    let there = from.pointer_to(len as u32)?;
    Ok(StringHead { len, there })
}

/// Reads the text that a string points to. A refusal may leave the reader anywhere.
pub fn read_text(alloc: Global, from: &mut NdrReader, head: StringHead) -> Result<Text, LogonFault>
    ensures exact { Gives (λ t. t) result from.new ((text_of head).reading from.old) }
{
    if !head.there {
        return Ok(Text::copy(alloc, "")?);
    }
    let octets = from.units(head.len)?;
    match from_utf16le(alloc, octets)? {
        Some(text) => Ok(text),
        None => Err(LogonFault::BadText),
    }
}

/// Reads past the octets that a string points to.
pub fn read_octets<'a>(from: &mut NdrReader<'a>, head: StringHead) -> Result<&'a [u8], NdrRefusal>
    ensures exact { Reads (λ x. x.now) result from.new ((octets_of head).reading from.old) }
{
    if !head.there {
        return Ok(&[]);
    }
    from.units(head.len)
}

/// Writes a text's string where it stands.
pub fn put_head(alloc: Global, to: &mut NdrWriter, text: &str) -> Result<(), AllocError>
    requires few { length (utf16le_text text.now) ≤ 65534 }
    ensures ok { OnOk result (to.new ≡ string_head.written to.old (head_of text.now)) }
{
    let octets = to_utf16le(alloc, text)?;
    let len = octets.len() as u16;
    to.u16(len)?;
    to.u16(len)?;
    to.pointer(len != 0)
}

/// Writes the text that the string points to.
#[tactic(auto, using(crate::proofs::TextLaws::even_octets))]
pub fn put_text(alloc: Global, to: &mut NdrWriter, text: &str) -> Result<(), AllocError>
    requires few { length (utf16le_text text.now) ≤ 65534 }
    ensures ok { OnOk result (to.new ≡ (text_of (head_of text.now)).written to.old text.now) }
    ensures fits { OnOk result ((text_of (head_of text.now)).Fits text.now) }
{
    let octets = to_utf16le(alloc, text)?;
    if octets.len() == 0 {
        return Ok(());
    }
    to.units(octets.as_slice())
}
