//! The PAC within a ticket's authorization data (RFC 4120, section 5.2.6.1; MS-PAC, section 2.8.3).
ghost use Rattle.std.specs.Prelude.{◌≡◌, ◌+◌, ◌++◌, ◌<◌, ◌≤◌, ◌*◌, ◌^◌, ℕ, List, [], ◌∷◌, IfOk, length, map, option_map, true};
ghost use Rattle.std.specs.List.{flat_map, list_any, AllByRecursion};
ghost use Rattle.der_core.specs.Codec.{whole, explicit};
ghost use Rattle.der_core.specs.Forms.{int32, octets};
ghost use Rattle.der_forms.specs.Lists.{items, sequence_of};
ghost use Rattle.der_forms.specs.Reads.{GivesOn};
ghost use Rattle.krb_tickets.specs.AuthItem.{auth_item};
ghost use Rattle.krb_tickets.specs.EncTicketPart.{enc_ticket_part};
ghost use Rattle.krb_tickets.specs.Found.{AreFound, Finds};
ghost use Rattle.krb_tickets.specs.Pac.{is_pac, elements_in, elements_of, pacs_in, pacs, pac_of, zeroed, item_without_pac, without_pac};

use crate::auth_item::{AuthItem, AuthItems};
use crate::enc_ticket_part::EncTicketPart;
use der_core::{DerCause, DerRefusal, Reader};
use der_forms::{ReadFault, read, write};
use krb_names::{Bytes, Items, TryClone};
use std::alloc::{AllocError, Global};

/// AD-IF-RELEVANT (RFC 4120, section 5.2.6.1).
const AD_IF_RELEVANT: i32 = 1;

/// AD-WIN2K-PAC (RFC 4120, section 7.5.4).
const AD_WIN2K_PAC: i32 = 128;

/// As many bytes are not read (own limit).
const TOO_MANY_BYTES: usize = 0x1_0000_0000;

/// One element of authorization data, whose ad-data stays where it is.
#[derive(Clone, Copy)]
struct LentItem<'a> {
    kind: i32,
    content: &'a [u8],
}

/// The PACs that were found.
#[derive(Clone, Copy)]
enum Found<'a> {
    Nothing,
    One(&'a [u8]),
    Several,
}

impl<'a> LentItem<'a> {
    /// The element's PAC, where it is one.
    fn pac(self) -> Found<'a>
        ensures { AreFound result (pacs_in (record { kind = self.entry.kind; content = self.entry.content.now } ∷ [])) }
    {
        if self.kind == AD_WIN2K_PAC {
            Found::One(self.content)
        } else {
            Found::Nothing
        }
    }
}

impl<'a> Found<'a> {
    /// These PACs and later ones.
    fn and(self, later: Found<'a>) -> Found<'a>
        ensures { (a b : List (List ℕ)) → AreFound self.entry a → AreFound later.entry b → AreFound result (a ++ b) }
    {
        match self {
            Found::Nothing => later,
            _ => match later {
                Found::Nothing => self,
                _ => Found::Several,
            },
        }
    }
}

/// The PAC of a part: the ad-data of the one element of ad-type 128 within its items of ad-type 1. An item of ad-type 1 that
/// does not read as AuthorizationData holds none, and no further level is looked at. None where there is no PAC, or several.
pub fn pac_of(part: &EncTicketPart) -> Option<&[u8]>
    ensures exact { option_map (λ pac. pac.now) result ≡ pac_of part.now }
{
    match pacs(part.items.as_slice()) {
        Found::One(pac) => Some(pac),
        _ => None,
    }
}

/// The PACs within items of the first level.
fn pacs(items: &[AuthItem]) -> Found<'_>
    ensures { AreFound result (pacs items.now) }
{
    let mut found = Found::Nothing;
    for item in items {
        found = found.and(pacs_of(item));
    }
    found
}

/// The PACs within an item of the first level.
fn pacs_of(item: &AuthItem) -> Found<'_>
    ensures { AreFound result (pacs_in (elements_of item.now)) }
{
    if item.kind == AD_IF_RELEVANT {
        pacs_in(item.content.as_slice())
    } else {
        Found::Nothing
    }
}

/// The PACs of an AuthorizationData; none where the bytes are not one.
#[tactic(auto, unfolding(crate::specs::Pac::elements_in))]
fn pacs_in(content: &[u8]) -> Found<'_>
    ensures { AreFound result (pacs_in (elements_in content.now)) }
{
    if content.len() >= TOO_MANY_BYTES {
        return Found::Nothing;
    }
    match find_whole(content) {
        Ok(found) => found,
        Err(_) => Found::Nothing,
    }
}

fn find_whole(content: &[u8]) -> Result<Found<'_>, DerRefusal>
    requires { length content.now < 2 ^ 32 }
    ensures { Finds result (whole (sequence_of auth_item) content.now) }
{
    let mut from = Reader::new(content);
    let found = find_in(from.take(0x30)?)?;
    from.done()?;
    Ok(found)
}

/// The PACs among the elements of a content.
fn find_in<'a>(content: Reader<'a>) -> Result<Found<'a>, DerRefusal>
    ensures { Finds result ((items auth_item).reading content.entry) }
{
    let fault = content.refusal(DerCause::LengthForm);
    let limit = content.rest().len();
    let mut from = content;
    let mut found = Found::Nothing;
    for _ in 0..limit {
        if from.is_empty() {
            return Ok(found);
        }
        let element = read_lent(&mut from)?;
        found = found.and(element.pac());
    }
    if !from.is_empty() {
        return Err(fault);
    }
    Ok(found)
}

/// Reads an element and leaves its ad-data where it is.
fn read_lent<'a>(from: &mut Reader<'a>) -> Result<LentItem<'a>, DerRefusal>
    ensures { GivesOn (λ x. record { kind = x.kind; content = x.content.now }) result from.new (auth_item.reading from.old) }
{
    let mut fields = from.take(0x30)?;
    let kind = kind_field(&mut fields)?;
    let content = content_field(&mut fields)?;
    fields.done()?;
    Ok(LentItem { kind, content })
}

/// Reads the field ad-type.
fn kind_field(from: &mut Reader) -> Result<i32, DerRefusal>
    ensures { GivesOn (λ x. x) result from.new ((explicit 0xa0 int32).reading from.old) }
{
    let mut inner = from.take(0xa0)?;
    let kind = inner.int_within(i32::MIN as i64, i32::MAX as i64)? as i32;
    inner.done()?;
    Ok(kind)
}

/// Reads the field ad-data, which stays where it is.
fn content_field<'a>(from: &mut Reader<'a>) -> Result<&'a [u8], DerRefusal>
    ensures { GivesOn (λ x. x.now) result from.new ((explicit 0xa1 octets).reading from.old) }
{
    let mut inner = from.take(0xa1)?;
    let content = inner.octets()?;
    inner.done()?;
    Ok(content)
}

/// The DER of the part that the ticket signature is over (MS-PAC, section 2.8.3): with one zero byte for the ad-data of its PAC.
/// The part's own DER where `pac_of` is None. Where the PAC has no bytes, the zero byte and the headers around it take a few more.
pub fn part_without_pac(alloc: Global, part: &EncTicketPart) -> Result<Bytes, AllocError>
    requires fits { enc_ticket_part.Fits part.now }
    requires short { length (enc_ticket_part.spelling part.now) + 16 < 2 ^ 32 }
    ensures ok { IfOk result (λ bytes. bytes ≡ enc_ticket_part.spelling (without_pac part.now)) }
    ensures short { IfOk result (λ bytes. length bytes ≤ length (enc_ticket_part.spelling part.now) + 12) }
{
    match pac_of(part) {
        None => write(alloc, part),
        Some(_) => {
            let items = items_without_pac(alloc, part.items.as_slice())?;
            write(alloc, &with_items(alloc, part, items)?)
        }
    }
}

/// A copy of the part with other authorization data.
fn with_items(
    alloc: Global,
    part: &EncTicketPart,
    items: AuthItems,
) -> Result<EncTicketPart, AllocError>
    ensures { IfOk result (λ copied. copied ≡ record part.now { items = items }) }
{
    Ok(EncTicketPart {
        flags: part.flags,
        key: part.key,
        client: part.client.try_clone(alloc)?,
        transited: part.transited.try_clone(alloc)?,
        auth: part.auth,
        start: part.start,
        end: part.end,
        items,
    })
}

/// The items with one zero byte for the one PAC among them.
fn items_without_pac(alloc: Global, items: &[AuthItem]) -> Result<AuthItems, AllocError>
    requires one { length (pacs items.now) ≤ 1 }
    requires short { length (flat_map auth_item.spelling items.now) + 16 < 2 ^ 32 }
    ensures value { IfOk result (λ made. made ≡ map item_without_pac items.now) }
    ensures within { IfOk result (λ _. length (flat_map auth_item.spelling (map item_without_pac items.now)) ≤ length (flat_map auth_item.spelling items.now) + 8 * length (pacs items.now)) }
{
    let mut made = Items::new(alloc);
    for item in items {
        made.push(item_without_pac(alloc, item)?)?;
    }
    Ok(made)
}

fn item_without_pac(alloc: Global, item: &AuthItem) -> Result<AuthItem, AllocError>
    requires one { length (pacs_in (elements_of item.now)) ≤ 1 }
    requires short { length item.now.content + 16 < 2 ^ 32 }
    ensures value { IfOk result (λ made. made ≡ item_without_pac item.now) }
    ensures within { IfOk result (λ _. length (auth_item.spelling (item_without_pac item.now)) ≤ length (auth_item.spelling item.now) + 8 * length (pacs_in (elements_of item.now))) }
{
    let elements = elements_of(alloc, item)?;
    if !has_pac(elements.as_slice()) {
        return item.try_clone(alloc);
    }
    Ok(AuthItem {
        kind: item.kind,
        content: write(alloc, &zeroed(alloc, elements.as_slice())?)?,
    })
}

/// The elements within an item of the first level.
fn elements_of(alloc: Global, item: &AuthItem) -> Result<AuthItems, AllocError>
    ensures value { IfOk result (λ elements. elements ≡ elements_of item.now) }
    ensures fits { IfOk result (λ elements. AllByRecursion auth_item.Fits elements) }
    ensures within { IfOk result (λ elements. list_any is_pac elements ≡ true → length ((sequence_of auth_item).spelling elements) ≤ length item.now.content) }
{
    if item.kind == AD_IF_RELEVANT {
        elements_in(alloc, item.content.as_slice())
    } else {
        Ok(Items::new(alloc))
    }
}

/// The elements of an AuthorizationData; none where the bytes are not one.
#[tactic(auto, unfolding(crate::specs::Pac::elements_in))]
fn elements_in(alloc: Global, content: &[u8]) -> Result<AuthItems, AllocError>
    ensures value { IfOk result (λ elements. elements ≡ elements_in content.now) }
    ensures fits { IfOk result (λ elements. AllByRecursion auth_item.Fits elements) }
    ensures within { IfOk result (λ elements. list_any is_pac elements ≡ true → length ((sequence_of auth_item).spelling elements) ≤ length content.now) }
{
    if content.len() >= TOO_MANY_BYTES {
        return Ok(Items::new(alloc));
    }
    match read(alloc, content) {
        Ok(elements) => Ok(elements),
        Err(ReadFault::Refused(_)) => Ok(Items::new(alloc)),
        Err(ReadFault::NoMemory) => Err(AllocError),
    }
}

/// Whether an element is a PAC.
fn has_pac(elements: &[AuthItem]) -> bool
    ensures { result ≡ list_any is_pac elements.now }
{
    elements.iter().any(|element| element.kind == AD_WIN2K_PAC)
}

/// The elements with one zero byte for the ad-data of each PAC.
fn zeroed(alloc: Global, elements: &[AuthItem]) -> Result<AuthItems, AllocError>
    ensures { IfOk result (λ made. made ≡ map zeroed elements.now) }
{
    let mut made = Items::new(alloc);
    for element in elements {
        made.push(zeroed_element(alloc, element)?)?;
    }
    Ok(made)
}

fn zeroed_element(alloc: Global, element: &AuthItem) -> Result<AuthItem, AllocError>
    ensures { IfOk result (λ made. made ≡ zeroed element.now) }
{
    if element.kind != AD_WIN2K_PAC {
        return element.try_clone(alloc);
    }
    Ok(AuthItem {
        kind: element.kind,
        content: Bytes::copy(alloc, &[0])?,
    })
}
