//! What trusts refer to.
ghost use Rattle.std.specs.Prelude.{◌≡◌, ◌≤◌, All, length};
ghost use Rattle.std.specs.List.{list_all, list_any};
ghost use Rattle.kdc_prelude.specs.Texts.{same_text};
ghost use Rattle.dir_records.specs.Clashes.{has_references, has_trust_back, is_other_realm, unknown_in, unknown_reference};

use crate::records::{RealmRec, Trust};
use crate::refusal::DirPlace;
use krb_names::Text;

/// The first trust that refers to what is not there.
pub(crate) fn find_unknown_reference(realms: &[RealmRec]) -> Option<DirPlace>
    requires few { length realms.now ≤ 64 }
    requires trusts { All (λ realm. length realm.trusts ≤ 32) realms.now }
    ensures { result ≡ unknown_reference realms.now }
{
    for (at, realm) in realms.iter().enumerate() {
        if let Some(place) = find_unknown_in(realms, at as u32, realm) {
            return Some(place);
        }
    }
    None
}

fn find_unknown_in(realms: &[RealmRec], at: u32, realm: &RealmRec) -> Option<DirPlace>
    requires { length realm.now.trusts ≤ 32 }
    ensures { result ≡ unknown_in realms.now at realm.now }
{
    let trusts = realm.trusts.as_slice();
    for (i, trust) in trusts.iter().enumerate() {
        if !has_references(realms, realm, trust) {
            return Some(DirPlace::Trust(at, i as u32 + 1));
        }
    }
    None
}

/// Whether a trust's partner is another realm with a trust back, and what it reaches are other realms.
fn has_references(realms: &[RealmRec], realm: &RealmRec, trust: &Trust) -> bool
    ensures { result ≡ has_references realms.now realm.now trust.now }
{
    is_other_realm(realms, realm, trust.partner.as_str())
        && has_trust_back(realms, realm, trust.partner.as_str())
        && are_other_realms(realms, realm, trust.reach.as_slice())
}

fn are_other_realms(realms: &[RealmRec], realm: &RealmRec, names: &[Text]) -> bool
    ensures { result ≡ list_all (is_other_realm realms.now realm.now) names.now }
{
    for name in names {
        if !is_other_realm(realms, realm, name.as_str()) {
            return false;
        }
    }
    true
}

fn is_other_realm(realms: &[RealmRec], realm: &RealmRec, name: &str) -> bool
    ensures { result ≡ is_other_realm realms.now realm.now name.now }
{
    name != realm.name.as_str() && has_realm(realms, name)
}

fn has_realm(realms: &[RealmRec], name: &str) -> bool
    ensures { result ≡ list_any (λ other. same_text other.name name.now) realms.now }
{
    for other in realms {
        if other.name.as_str() == name {
            return true;
        }
    }
    false
}

fn has_trust_back(realms: &[RealmRec], realm: &RealmRec, name: &str) -> bool
    ensures { result ≡ has_trust_back realms.now realm.now name.now }
{
    for other in realms {
        if other.name.as_str() == name
            && has_partner(other.trusts.as_slice(), realm.name.as_str())
        {
            return true;
        }
    }
    false
}

fn has_partner(trusts: &[Trust], name: &str) -> bool
    ensures { result ≡ list_any (λ back. same_text back.partner name.now) trusts.now }
{
    for trust in trusts {
        if trust.partner.as_str() == name {
            return true;
        }
    }
    false
}
