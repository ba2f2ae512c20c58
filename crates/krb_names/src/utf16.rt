//! Texts in UTF-16 with the low octet of each unit first, RFC 2781.
ghost use Rattle.std.specs.Prelude.{◌≡◌, ◌++◌, flat_map, option_map, IfOk, OnOk, Some};
ghost use Rattle.std.specs.Char.Escape.{encode_utf16};
ghost use Rattle.krb_names.specs.Utf16.{unit_octets, units_of_octets, utf16le_reading, utf16le_text};

use crate::items::Bytes;
use crate::text::Text;
use std::alloc::{AllocError, Global};

/// The text in UTF-16LE, without a byte order mark. Takes memory.
pub fn to_utf16le(alloc: Global, text: &str) -> Result<Bytes, AllocError>
    ensures value { IfOk result (λ octets. octets ≡ utf16le_text text.now) }
    ensures exact { IfOk result (λ octets. utf16le_reading octets ≡ Some text.now) }
{
    let mut octets = Bytes::new(alloc);
    for c in text.chars() {
        push_char(&mut octets, c)?;
    }
    Ok(octets)
}

/// The text of UTF-16LE. Takes memory. `None` where the length is odd or a surrogate has no partner.
pub fn from_utf16le(alloc: Global, bytes: &[u8]) -> Result<Option<Text>, AllocError>
    ensures value { IfOk result (λ text. text ≡ utf16le_reading bytes.now) }
{
    let Some(units) = read_units(alloc, bytes)? else {
        return Ok(None);
    };
    match String::from_utf16(alloc, units.as_slice())? {
        Ok(text) => Ok(Some(Text::from_string(text))),
        Err(_) => Ok(None),
    }
}

fn push_char(octets: &mut Bytes, c: char) -> Result<(), AllocError>
    ensures { OnOk result (octets.new ≡ octets.old ++ flat_map unit_octets (encode_utf16 c)) }
{
    let mut units = [0; 2];
    push_units(octets, c.encode_utf16(&mut units))
}

fn push_units(octets: &mut Bytes, units: &[u16]) -> Result<(), AllocError>
    ensures { OnOk result (octets.new ≡ octets.old ++ flat_map unit_octets units.now) }
{
    for unit in units {
        octets.push((*unit % 256) as u8)?;
        octets.push((*unit / 256) as u8)?;
    }
    Ok(())
}

fn read_units(alloc: Global, octets: &[u8]) -> Result<Option<Vec<u16>>, AllocError>
    ensures { IfOk result (λ units. option_map (λ found. found.items) units ≡ units_of_octets octets.now) }
{
    let mut units = Vec::new(alloc);
    let mut left = octets;
    while let [low, high, rest @ ..] = left {
        units.push(*low as u16 + *high as u16 * 256)?;
        left = rest;
    }
    Ok(if left.is_empty() { Some(units) } else { None })
}
