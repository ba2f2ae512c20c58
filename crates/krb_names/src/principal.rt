//! Names of principals, RFC 4120, section 6.2.
ghost use Rattle.std.specs.Prelude.{◌≡◌, pos, [], ◌∷◌, option_map};
ghost use Rattle.kdc_prelude.specs.Answers.{Answers};
ghost use Rattle.krb_names.specs.Principals.{name_reading, round_last_at};

use crate::items::{Items, TryClone};
use crate::pieces::find_fault;
use crate::realm::Realm;
use crate::refusal::NameRefusal;
use crate::text::{Text, Texts};
use std::alloc::{AllocError, Global};

/// A PrincipalName and the realm beside it: the name-type, the name-string, the realm.
///
/// Two principals are the same where their parts and realms are equal, whatever their kinds.
#[derive(Debug, Drop)]
pub struct Principal {
    pub kind: i32,
    pub parts: Texts,
    pub realm: Realm,
}

impl Principal {
    ghost use Rattle.krb_names.specs.Principals.{same_principal};

    /// Whether the two are the same: equal parts and equal realms, whatever the kinds.
    pub fn is_same(&self, other: &Principal) -> bool
        ensures { result ≡ same_principal self.now other.now }
    {
        self.parts.as_slice() == other.parts.as_slice() && self.realm == other.realm
    }
}

impl TryClone for Principal {
    fn try_clone(&self, alloc: Global) -> Result<Principal, AllocError> {
        Ok(Principal {
            kind: self.kind,
            parts: self.parts.try_clone(alloc)?,
            realm: self.realm.try_clone(alloc)?,
        })
    }
}

/// Reads `name@REALM`, cut at the last `@`, as a name of kind 1 (NT-PRINCIPAL) with one part.
///
/// # Errors
/// `Empty`, `TooLong` and `BadText`, the first that a piece breaks; `BadText` where no `@` is there; `NoMemory`.
pub fn parse_name(alloc: Global, text: &str) -> Result<Principal, NameRefusal>
    ensures { Answers NameRefusal.NoMemory result (name_reading text.now) }
{
    match split_last_at(text) {
        None => Err(find_fault(&[text], false).unwrap_or(NameRefusal::BadText)),
        Some((name, realm)) => match find_fault(&[name, realm], true) {
            Some(fault) => Err(fault),
            None => make_principal(alloc, name, realm),
        },
    }
}

fn make_principal(alloc: Global, name: &str, realm: &str) -> Result<Principal, NameRefusal>
    ensures { Answers NameRefusal.NoMemory result (Ok (record { kind = pos 1; parts = name.now ∷ []; realm = realm.now })) }
{
    let mut parts = Items::new(alloc);
    parts.push(Text::copy(alloc, name)?)?;
    Ok(Principal {
        kind: 1,
        parts,
        realm: Realm::copy(alloc, realm)?,
    })
}

fn split_last_at(text: &str) -> Option<(&str, &str)>
    ensures { option_map (λ parts. (parts.0.now, parts.1.now)) result ≡ round_last_at text.now }
{
    text.rsplit_once('@')
}
