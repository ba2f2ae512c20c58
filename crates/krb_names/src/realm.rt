//! Names of realms, RFC 4120, section 6.1.
ghost use Rattle.std.specs.Prelude.{◌≡◌, IfOk};
ghost use Rattle.kdc_prelude.specs.Answers.{Answers};
ghost use Rattle.krb_names.specs.Realms.{realm_reading};

use crate::items::TryClone;
use crate::pieces::find_fault;
use crate::refusal::NameRefusal;
use crate::text::Text;
use std::alloc::{AllocError, Global};
use std::marker::Model;

/// The name of a realm, which contracts see as its bytes.
#[derive(Debug, Drop)]
pub struct Realm {
    text: Text,
}

impl Model for Realm {
    ghost use Rattle.std.specs.Prelude.{List, ℕ};

    ghost Value = { List ℕ };

    ghost view = { λ realm. realm.text };
}

impl Realm {
    /// The realm of a text that was found to be a name.
    pub(crate) fn copy(alloc: Global, text: &str) -> Result<Realm, AllocError>
        ensures { IfOk result (λ copied. copied ≡ text.now) }
    {
        Ok(Realm {
            text: Text::copy(alloc, text)?,
        })
    }

    /// What the name takes its memory from.
    pub fn allocator(&self) -> Global {
        self.text.allocator()
    }

    /// The realm's name.
    pub fn as_str(&self) -> &str
        ensures { result.now ≡ self.now }
    {
        self.text.as_str()
    }
}

impl PartialEq for Realm {
    ghost use Rattle.std.specs.Cmp.{partial_equiv_from_equiv};
    ghost use Rattle.std.proofs.lemmas.Cmp.{nat_list_eq_equiv};
    ghost use Rattle.kdc_prelude.specs.Texts.{same_text};

    ghost eq = { same_text };

    ghost laws = { partial_equiv_from_equiv nat_list_eq_equiv };

    fn eq(&self, other: &Realm) -> bool {
        self.as_str() == other.as_str()
    }
}

impl Eq for Realm {
    ghost use Rattle.std.proofs.lemmas.Cmp.{nat_list_eq_equiv};

    ghost laws = { nat_list_eq_equiv };
}

impl TryClone for Realm {
    fn try_clone(&self, alloc: Global) -> Result<Realm, AllocError> {
        Ok(Realm {
            text: self.text.try_clone(alloc)?,
        })
    }
}

/// Reads the name of a realm: one name text, of any number of labels.
///
/// # Errors
/// `Empty`, `TooLong` and `BadText`, the first that the text breaks; `NoMemory`.
pub fn parse_realm(alloc: Global, text: &str) -> Result<Realm, NameRefusal>
    ensures { Answers NameRefusal.NoMemory result (realm_reading text.now) }
{
    if let Some(fault) = find_fault(&[text], true) {
        return Err(fault);
    }
    Ok(Realm::copy(alloc, text)?)
}
