//! Entries of an account's lists, no two of which may be the same.
ghost use Rattle.std.specs.Prelude.{◌≡◌, Bool};
ghost use Rattle.std.specs.List.{list_any};
ghost use Rattle.kdc_prelude.specs.Distinct.{all_distinct};

use krb_names::{Sid, Text};

/// A value that is the same as another or not.
pub trait Entry {
    ghost same: { Self → Self → Bool };

    fn is_same(&self, other: &Self) -> bool
        ensures { result ≡ same self.now other.now };
}

impl Entry for u32 {
    ghost use Rattle.std.specs.Prelude.{nat_eq};

    ghost same = { nat_eq };

    fn is_same(&self, other: &u32) -> bool {
        *self == *other
    }
}

impl Entry for Text {
    ghost use Rattle.kdc_prelude.specs.Texts.{same_text};

    ghost same = { same_text };

    fn is_same(&self, other: &Text) -> bool {
        self.as_str() == other.as_str()
    }
}

impl Entry for Sid {
    ghost use Rattle.krb_names.specs.SidValue.{same_sid};

    ghost same = { same_sid };

    fn is_same(&self, other: &Sid) -> bool {
        self.authority() == other.authority() && self.numbers() == other.numbers()
    }
}

/// Whether no entry is the same as one after it.
pub fn are_distinct<T: Entry>(entries: &[T]) -> bool
    ensures { result ≡ all_distinct T.same entries.now }
{
    for (i, entry) in entries.iter().enumerate() {
        if is_among(entry, &entries[i + 1..]) {
            return false;
        }
    }
    true
}

/// Whether an entry is the same as one of these.
pub fn is_among<T: Entry>(entry: &T, others: &[T]) -> bool
    ensures { result ≡ list_any (T.same entry.now) others.now }
{
    for other in others {
        if entry.is_same(other) {
            return true;
        }
    }
    false
}
