//! The fields of a change line, each by itself.
ghost use Rattle.std.specs.Prelude.{◌≡◌, codes, length, nat_eq, IfOk};
ghost use Rattle.std.specs.List.{starts_with};
ghost use Rattle.krb_names.specs.Etypes.{key_length};
ghost use Rattle.change_lines.specs.Fields.{account_name_of, account_fields, etype_of, key_of, mark_of, number_of, octets_of, realm_of, service_of, sid_of, switch_of, trust_of};
ghost use Rattle.change_lines.specs.Gives.{Gives};

use dir_records::{DirCause, KeyRec, Mark, is_account_name};
use krb_names::{
    Bytes, Etype, Items, Key, NameRefusal, Sid, Spn, Text, is_name_text, parse_decimal, parse_sid,
    parse_spn,
};
use std::alloc::Global;

/// REALM, PARTNER: the name of a realm.
#[tactic(auto, unfolding(crate::specs::Fields::realm_of))]
pub(crate) fn realm_of(alloc: Global, text: &str) -> Result<Text, DirCause>
    ensures { Gives result (realm_of text.now) }
{
    if !is_name_text(text) {
        return Err(DirCause::BadField);
    }
    Ok(Text::copy(alloc, text)?)
}

/// NAME: the name of an account.
#[tactic(auto, unfolding(crate::specs::Fields::account_name_of))]
fn account_name_of(alloc: Global, text: &str) -> Result<Text, DirCause>
    ensures { Gives result (account_name_of text.now) }
{
    if !is_account_name(text) {
        return Err(DirCause::BadField);
    }
    Ok(Text::copy(alloc, text)?)
}

/// REALM NAME: an account's realm and its name.
#[tactic(auto, unfolding(crate::specs::Fields::account_fields))]
pub(crate) fn account_fields(
    alloc: Global,
    realm: &str,
    name: &str,
) -> Result<(Text, Text), DirCause>
    ensures { Gives result (account_fields realm.now name.now) }
{
    let realm = realm_of(alloc, realm)?;
    let name = account_name_of(alloc, name)?;
    Ok((realm, name))
}

/// REALM PARTNER: a trust's realm and its partner.
#[tactic(auto, unfolding(crate::specs::Fields::trust_of))]
pub(crate) fn trust_of(alloc: Global, realm: &str, partner: &str) -> Result<(Text, Text), DirCause>
    ensures { Gives result (trust_of realm.now partner.now) }
{
    let realm = realm_of(alloc, realm)?;
    let partner = realm_of(alloc, partner)?;
    Ok((realm, partner))
}

/// SPN: the name of a service.
#[tactic(auto, unfolding(crate::specs::Fields::service_of))]
pub(crate) fn service_of(alloc: Global, text: &str) -> Result<Spn, DirCause>
    ensures { Gives result (service_of text.now) }
{
    match parse_spn(alloc, text) {
        Ok(spn) if !begins_with_krbtgt(text) => Ok(spn),
        Err(NameRefusal::NoMemory) => Err(DirCause::NoMemory),
        _ => Err(DirCause::BadField),
    }
}

fn begins_with_krbtgt(text: &str) -> bool
    ensures { result ≡ starts_with nat_eq text.now (codes "krbtgt/") }
{
    text.starts_with("krbtgt/")
}

/// SID: a security identifier.
#[tactic(auto, unfolding(crate::specs::Fields::sid_of))]
pub(crate) fn sid_of(text: &str) -> Result<Sid, DirCause>
    ensures { result ≡ sid_of text.now }
{
    match parse_sid(text) {
        Ok(sid) => Ok(sid),
        Err(_) => Err(DirCause::BadField),
    }
}

/// A number from `low` to `high`.
#[tactic(auto, unfolding(crate::specs::Fields::number_of))]
pub(crate) fn number_of(text: &str, low: u32, high: u32) -> Result<u32, DirCause>
    ensures { result ≡ number_of low high text.now }
{
    match parse_decimal(text, u64::from(high)) {
        Some(number) if number >= u64::from(low) => Ok(number as u32),
        _ => Err(DirCause::BadField),
    }
}

/// MARK: a mark of an account.
#[tactic(auto, unfolding(crate::specs::Fields::mark_of))]
pub(crate) fn mark_of(text: &str) -> Result<Mark, DirCause>
    ensures { result ≡ mark_of text.now }
{
    match text {
        "disabled" => Ok(Mark::Disabled),
        "not_delegated" => Ok(Mark::NotDelegated),
        "trusted_to_auth" => Ok(Mark::TrustedToAuth),
        "preauth" => Ok(Mark::Preauth),
        _ => Err(DirCause::BadField),
    }
}

/// `on` or `off`.
#[tactic(auto, unfolding(crate::specs::Fields::switch_of))]
pub(crate) fn switch_of(text: &str) -> Result<bool, DirCause>
    ensures { result ≡ switch_of text.now }
{
    match text {
        "on" => Ok(true),
        "off" => Ok(false),
        _ => Err(DirCause::BadField),
    }
}

/// ETYPE KVNO HEX: a key and its version number.
#[tactic(auto, unfolding(crate::specs::Fields::key_of))]
pub(crate) fn key_of(alloc: Global, etype: &str, kvno: &str, hex: &str) -> Result<KeyRec, DirCause>
    ensures { Gives result (key_of etype.now kvno.now hex.now) }
{
    let etype = etype_of(etype)?;
    let version = number_of(kvno, 1, u32::MAX)?;
    let octets = octets_of(alloc, etype, hex)?;
    Ok(KeyRec {
        key: Key::new(etype, octets.as_slice()),
        version,
    })
}

#[tactic(auto, unfolding(crate::specs::Fields::etype_of))]
fn etype_of(text: &str) -> Result<Etype, DirCause>
    ensures { result ≡ etype_of text.now }
{
    match text {
        "17" => Ok(Etype::Aes128),
        "18" => Ok(Etype::Aes256),
        _ => Err(DirCause::BadField),
    }
}

#[tactic(auto, unfolding(crate::specs::Fields::octets_of))]
fn octets_of(alloc: Global, etype: Etype, text: &str) -> Result<Bytes, DirCause>
    ensures value { Gives result (octets_of etype text.now) }
    ensures fits { IfOk result (λ octets. length octets ≡ key_length etype) }
{
    match hex::decode(alloc, text) {
        Ok(octets) if octets.len() == etype.key_length() => Ok(Items::from_vec(octets)),
        Err(hex::FromHexError::OutOfMemory) => Err(DirCause::NoMemory),
        _ => Err(DirCause::BadField),
    }
}
