//! The parts of names (RFC 4120, sections 5.2.2 and 6.2): `name-string [1] SEQUENCE OF KerberosString`.
ghost use Rattle.std.specs.Prelude.{◌≡◌, ◌++◌, ◌<◌, ◌^◌, length, true, IfOk, OnOk};
ghost use Rattle.der_core.specs.Codec.{element_of, explicit};
ghost use Rattle.der_core.specs.Elements.{element};
ghost use Rattle.der_forms.specs.Fields.{tag_of};
ghost use Rattle.der_forms.specs.Lists.{items_at};
ghost use Rattle.der_forms.specs.Names.{kerberos_string};
ghost use Rattle.der_forms.specs.Reads.{Reads, ReadsOn};
ghost use Rattle.krb_tickets.specs.NameString.{plain_parts, is_joined, begins_joined, lone_at, name_string};

use der_core::{DerCause, Reader, Writer};
use der_forms::{ReadFault, put_items};
use krb_names::{Items, NameRefusal, Text, Texts, is_name_text, parse_name};
use std::alloc::{AllocError, Global};

/// NT-ENTERPRISE (RFC 4120, section 6.2): the one part may be a name and a realm, joined by `@`.
const NT_ENTERPRISE: i32 = 10;

/// The most parts that a name may have (own choice).
const MOST_PARTS: usize = 8;

/// Reads the field name-string of a name of this type.
pub fn name_string(alloc: Global, from: &mut Reader, kind: i32) -> Result<Texts, ReadFault>
    ensures exact { ReadsOn result from.new ((explicit (tag_of 1) (element_of 0x30 (name_string kind))).reading from.old) }
{
    let mut inner = from.take(0xa1)?;
    let parts = read_parts(alloc, inner.take(0x30)?, kind)?;
    inner.done()?;
    Ok(parts)
}

/// Writes the field name-string.
pub fn put_name_string(to: &mut Writer, kind: i32, parts: &Texts) -> Result<(), AllocError>
    requires fits { (name_string kind).Fits parts.now }
    requires short { length (element 0x30 ((name_string kind).spelling parts.now)) < 2 ^ 32 }
    ensures ok { OnOk result (to.new ≡ to.old ++ element (tag_of 1) (element 0x30 ((name_string kind).spelling parts.now))) }
{
    let mark = to.mark();
    put_items(to, parts.as_slice())?;
    to.wrap(0x30, mark)?;
    to.wrap(0xa1, mark)
}

fn read_parts(alloc: Global, content: Reader, kind: i32) -> Result<Texts, ReadFault>
    ensures { Reads result ((name_string kind).reading content.entry) }
{
    if kind == NT_ENTERPRISE && begins_joined(alloc, &content)? {
        return read_lone(alloc, content);
    }
    read_plain(alloc, content)
}

/// Whether the first part is a joined text.
fn begins_joined(alloc: Global, content: &Reader) -> Result<bool, AllocError>
    ensures { IfOk result (λ b. b ≡ begins_joined content.now) }
{
    match content.again().text() {
        Ok(text) => is_joined(alloc, text),
        Err(_) => Ok(false),
    }
}

/// Whether a text is a name and a realm, joined by `@`.
fn is_joined(alloc: Global, text: &str) -> Result<bool, AllocError>
    ensures { IfOk result (λ b. b ≡ is_joined text.now) }
{
    if is_name_text(text) {
        return Ok(false);
    }
    match parse_name(alloc, text) {
        Ok(_) => Ok(true),
        Err(NameRefusal::NoMemory) => Err(AllocError),
        Err(_) => Ok(false),
    }
}

/// Reads the one part, a joined text. Where anything follows it, the part itself is at fault.
fn read_lone(alloc: Global, content: Reader) -> Result<Texts, ReadFault>
    requires { begins_joined content ≡ true }
    ensures { Reads result (lone_at content.entry) }
{
    let mut from = content;
    let part = from.take(0x1b)?;
    if !from.is_empty() {
        return Err(ReadFault::Refused(part.refusal(DerCause::BadText)));
    }
    let mut parts = Items::new(alloc);
    parts.push(Text::copy(alloc, part.content_text()?)?)?;
    Ok(parts)
}

/// Reads 1 to 8 name texts.
fn read_plain(alloc: Global, content: Reader) -> Result<Texts, ReadFault>
    ensures { Reads result (plain_parts.reading content.entry) }
{
    let fault = content.refusal(DerCause::LengthForm);
    let parts = read_texts(alloc, content)?;
    if parts.is_empty() {
        return Err(ReadFault::Refused(fault));
    }
    Ok(parts)
}

fn read_texts(alloc: Global, content: Reader) -> Result<Texts, ReadFault>
    ensures exact { Reads result (items_at 8 content.entry.place kerberos_string content.entry) }
{
    let fault = content.refusal(DerCause::LengthForm);
    let mut from = content;
    let mut items = Items::new(alloc);
    for _ in 0..MOST_PARTS {
        if from.is_empty() {
            return Ok(items);
        }
        let item = read_name_text(alloc, &mut from)?;
        items.push(item)?;
    }
    if !from.is_empty() {
        return Err(ReadFault::Refused(fault));
    }
    Ok(items)
}

fn read_name_text(alloc: Global, from: &mut Reader) -> Result<Text, ReadFault>
    ensures exact { ReadsOn result from.new (kerberos_string.reading from.old) }
{
    let content = from.take(0x1b)?;
    let text = content.content_text()?;
    if !is_name_text(text) {
        return Err(ReadFault::Refused(content.refusal(DerCause::BadText)));
    }
    Ok(Text::copy(alloc, text)?)
}
