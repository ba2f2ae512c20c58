//! Service principal names: the name-string of a service as one text.
ghost use Rattle.std.specs.Prelude.{◌≡◌, map, IfOk};
ghost use Rattle.kdc_prelude.specs.Answers.{Answers};
ghost use Rattle.krb_names.specs.Spns.{spn_pieces, spn_reading};

use crate::items::TryClone;
use crate::pieces::find_fault;
use crate::refusal::NameRefusal;
use crate::text::Text;
use std::alloc::{AllocError, Global};
use std::marker::Model;

/// A service principal name: two or three name texts joined by `/`, which contracts see as its bytes.
#[derive(Debug, Drop)]
pub struct Spn {
    text: Text,
}

impl Model for Spn {
    ghost use Rattle.std.specs.Prelude.{List, ℕ};

    ghost Value = { List ℕ };

    ghost view = { λ spn. spn.text };
}

impl Spn {
    /// The name as it is written.
    pub fn as_str(&self) -> &str
        ensures { result.now ≡ self.now }
    {
        self.text.as_str()
    }
}

impl PartialEq for Spn {
    ghost use Rattle.std.specs.Cmp.{partial_equiv_from_equiv};
    ghost use Rattle.std.proofs.lemmas.Cmp.{nat_list_eq_equiv};
    ghost use Rattle.kdc_prelude.specs.Texts.{same_text};

    ghost eq = { same_text };

    ghost laws = { partial_equiv_from_equiv nat_list_eq_equiv };

    fn eq(&self, other: &Spn) -> bool {
        self.as_str() == other.as_str()
    }
}

impl Eq for Spn {
    ghost use Rattle.std.proofs.lemmas.Cmp.{nat_list_eq_equiv};

    ghost laws = { nat_list_eq_equiv };
}

impl TryClone for Spn {
    fn try_clone(&self, alloc: Global) -> Result<Spn, AllocError> {
        Ok(Spn {
            text: self.text.try_clone(alloc)?,
        })
    }
}

/// Reads a service principal name, cut at each `/`.
///
/// # Errors
/// `Empty`, `TooLong` and `BadText`, the first that a piece breaks; `BadText` where there are not two or three; `NoMemory`.
pub fn parse_spn(alloc: Global, text: &str) -> Result<Spn, NameRefusal>
    ensures { Answers NameRefusal.NoMemory result (spn_reading text.now) }
{
    let pieces: Vec<&str> = split_at_slashes(alloc, text)?;
    let count = pieces.len();
    if let Some(fault) = find_fault(pieces.as_slice(), count == 2 || count == 3) {
        return Err(fault);
    }
    Ok(Spn {
        text: Text::copy(alloc, text)?,
    })
}

fn split_at_slashes(alloc: Global, text: &str) -> Result<Vec<&str>, AllocError>
    ensures { IfOk result (λ pieces. map (λ piece. piece.now) pieces.items ≡ spn_pieces text.now) }
{
    text.split('/').collect(alloc)
}
