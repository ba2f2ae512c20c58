//! TransitedEncoding (RFC 4120, section 5.3):
//! ```text
//! TransitedEncoding ::= SEQUENCE {
//!     tr-type  [0] Int32 (1),       -- DOMAIN-X500-COMPRESS
//!     contents [1] OCTET STRING     -- realms joined by commas, at most 32
//! }
//! ```
ghost use Rattle.std.specs.Prelude.{◌≡◌, ◌++◌, ◌<◌, ◌^◌, length, map, OnOk, IfOk, true, false, nat_eq, Option, Some, None, if◌then◌else◌, MatchOption};
ghost use Rattle.std.specs.List.{list_all, slice_split, join_with_byte};
ghost use Rattle.der_core.specs.Codec.{explicit};
ghost use Rattle.der_core.specs.Elements.{element};
ghost use Rattle.der_forms.specs.Fields.{tag_of};
ghost use Rattle.der_forms.specs.Reads.{Reads, ReadsOn};
ghost use Rattle.krb_tickets.specs.Transited.{is_realm, names_in, contents, transited};

use der_core::{DerCause, Reader, Writer};
use der_forms::{ReadFault, number_field, put_number};
use krb_names::{Items, Text, Texts, is_name_text};
use std::alloc::{AllocError, Global};

/// The most realms that may be listed (own choice).
const MOST_REALMS: usize = 32;

/// Reads the field transited, number 4.
pub fn transited_field(alloc: Global, from: &mut Reader) -> Result<Texts, ReadFault>
    ensures exact { ReadsOn result from.new ((explicit (tag_of 4) transited).reading from.old) }
{
    let mut inner = from.take(0xa4)?;
    let names = read_transited(alloc, &mut inner)?;
    inner.done()?;
    Ok(names)
}

fn read_transited(alloc: Global, from: &mut Reader) -> Result<Texts, ReadFault>
    ensures exact { ReadsOn result from.new (transited.reading from.old) }
{
    let mut fields = from.take(0x30)?;
    number_field(&mut fields, 0, 1)?;
    let names = contents_field(alloc, &mut fields)?;
    fields.done()?;
    Ok(names)
}

fn contents_field(alloc: Global, from: &mut Reader) -> Result<Texts, ReadFault>
    ensures exact { ReadsOn result from.new ((explicit (tag_of 1) contents).reading from.old) }
{
    let mut inner = from.take(0xa1)?;
    let names = read_names(alloc, inner.take(4)?)?;
    inner.done()?;
    Ok(names)
}

/// The realms between the commas of a content; none of an empty one.
#[tactic(auto, unfolding(crate::specs::Transited::names_in))]
fn read_names(alloc: Global, content: Reader) -> Result<Texts, ReadFault>
    ensures { Reads result (names_in content.entry.place content.entry.bytes) }
{
    let bytes = content.rest();
    if bytes.is_empty() {
        return Ok(Items::new(alloc));
    }
    let pieces = split_at_commas(alloc, bytes)?;
    if pieces.len() <= MOST_REALMS {
        if let Some(names) = realms(alloc, pieces.as_slice())? {
            return Ok(names);
        }
    }
    Err(ReadFault::Refused(content.refusal(DerCause::BadText)))
}

fn split_at_commas(alloc: Global, bytes: &[u8]) -> Result<Vec<&[u8]>, AllocError>
    ensures { IfOk result (λ pieces. map (λ piece. piece.now) pieces.items ≡ slice_split (λ c. nat_eq c 44) bytes.now) }
{
    bytes.split(|b| *b == b',').collect(alloc)
}

/// The pieces as texts, where each is a realm.
fn realms(alloc: Global, pieces: &[&[u8]]) -> Result<Option<Texts>, AllocError>
    ensures { IfOk result (λ names. names ≡ (if list_all is_realm (map (λ piece. piece.now) pieces.now) then Some (map (λ piece. piece.now) pieces.now) else None)) }
{
    let mut names = Items::new(alloc);
    for piece in pieces {
        let Some(name) = realm_text(piece) else {
            return Ok(None);
        };
        names.push(Text::copy(alloc, name)?)?;
    }
    Ok(Some(names))
}

/// The bytes as a text, where they are a realm.
#[tactic(auto, using(crate::proofs::Texts::is_text, crate::proofs::Texts::no_text))]
fn realm_text(bytes: &[u8]) -> Option<&str>
    ensures { MatchOption result (is_realm bytes.now ≡ false) (λ text. (is_realm bytes.now ≡ true) × (text.now ≡ bytes.now)) }
{
    match std::str::from_utf8(bytes) {
        Ok(text) if is_name_text(text) => Some(text),
        _ => None,
    }
}

/// Writes the field transited, number 4.
pub fn put_transited(to: &mut Writer, names: &Texts) -> Result<(), AllocError>
    requires { length (transited.spelling names.now) < 2 ^ 32 }
    ensures ok { OnOk result (to.new ≡ to.old ++ element (tag_of 4) (transited.spelling names.now)) }
{
    let mark = to.mark();
    put_number(to, 0, 1)?;
    put_contents(to, names.as_slice())?;
    to.wrap(0x30, mark)?;
    to.wrap(0xa4, mark)
}

fn put_contents(to: &mut Writer, names: &[Text]) -> Result<(), AllocError>
    requires { length (contents.spelling names.now) < 2 ^ 32 }
    ensures ok { OnOk result (to.new ≡ to.old ++ element (tag_of 1) (contents.spelling names.now)) }
{
    let mark = to.mark();
    put_joined(to, names)?;
    to.wrap(4, mark)?;
    to.wrap(0xa1, mark)
}

/// Writes names with commas between them.
fn put_joined(to: &mut Writer, names: &[Text]) -> Result<(), AllocError>
    ensures ok { OnOk result (to.new ≡ to.old ++ join_with_byte 44 names.now) }
{
    let [first, others @ ..] = names else {
        return Ok(());
    };
    to.raw(first.as_str().as_bytes())?;
    for name in others {
        to.raw(b",")?;
        to.raw(name.as_str().as_bytes())?;
    }
    Ok(())
}
