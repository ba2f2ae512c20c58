//! Looking things up in the lists of a directory.
ghost use Rattle.std.specs.Prelude.{◌≡◌, ◌<◌, ◌≤◌, ◌^◌, All, IfSome, length, position, slice_get};
ghost use Rattle.std.specs.List.{AllZip, list_any};
ghost use Rattle.kdc_prelude.specs.Texts.{is_one_of, same_text};
ghost use Rattle.dir_core.specs.Indexed.{IsRealmIndexed};
ghost use Rattle.dir_core.specs.Lookups.{has_sid, leads_to, reaches_from, sid_place_from};

use crate::indexes::RealmIndex;
use dir_records::{RealmRec, Trust};
use krb_names::{Sid, Text};

pub(crate) fn narrow(place: Option<usize>) -> Option<u32>
    requires { IfSome place (λ place. place < 2 ^ 32) }
    ensures { result ≡ place }
{
    match place {
        Some(place) => Some(place as u32),
        None => None,
    }
}

/// Whether the text is one of these.
pub fn has_text(texts: &[Text], wanted: &str) -> bool
    ensures { result ≡ is_one_of texts.now wanted.now }
{
    texts.iter().any(|text| wanted == text.as_str())
}

/// Where the account stands that has this SID, in realms with their indexes.
pub(crate) fn place_of_sid(
    realms: &[RealmRec],
    indexes: &[RealmIndex],
    sid: &Sid,
) -> Option<(u32, u32)>
    requires few { length realms.now ≤ 64 }
    requires indexed { AllZip IsRealmIndexed indexes.now realms.now }
    ensures { result ≡ sid_place_from sid.now 0 realms.now }
{
    for (i, realm) in realms.iter().enumerate() {
        if let Some(account) = place_of_number(realm, &indexes[i], sid) {
            return Some((i as u32, account));
        }
    }
    None
}

/// The index of the account of a realm that has this SID: the realm's, followed by the account's number.
fn place_of_number(realm: &RealmRec, index: &RealmIndex, sid: &Sid) -> Option<u32>
    requires { IsRealmIndexed index.now realm.now }
    ensures { result ≡ position (has_sid realm.now.sid sid.now) realm.now.accounts }
{
    let numbers = sid.numbers();
    let last = numbers.len() - 1;
    if realm.sid.authority() == sid.authority() && realm.sid.numbers() == &numbers[..last] {
        index.numbers.find(numbers[last])
    } else {
        None
    }
}

pub(crate) fn place_of_trust(trusts: &[Trust], name: &str) -> Option<usize>
    ensures place { result ≡ position (leads_to name.now) trusts.now }
    ensures within { IfSome result (λ place. place < length trusts.now) }
{
    trusts.iter().position(|trust| leads_to(trust, name))
}

/// Whether a trust reaches the realm of this name: its partner, or one of its reach list.
fn leads_to(trust: &Trust, name: &str) -> bool
    ensures { result ≡ leads_to name.now trust.now }
{
    trust.partner.as_str() == name || has_text(trust.reach.as_slice(), name)
}

pub(crate) fn has_trust_reaching(trusts: &[Trust], partner: &str, name: &str) -> bool
    ensures { result ≡ list_any (reaches_from partner.now name.now) trusts.now }
{
    for trust in trusts {
        if trust.partner.as_str() == partner && leads_to(trust, name) {
            return true;
        }
    }
    false
}
