//! The ranges of the types, which a value keeps, as facts that its caller can use.
ghost use Rattle.std.specs.List.{AllByRecursion};

use crate::records::{Account, Contents, KeyRec, RealmRec, SpentNumber, Trust};
use krb_names::{Realm, Sid, Text};

/// A value whose numbers, octets and texts are in the ranges of their types.
pub trait InRange {
    ghost in_range: { Self → Type 0 };

    /// Tells that it is in range.
    fn keeps_range(&self)
        ensures { in_range self.now };
}

/// Tells that all of these are in range.
pub fn keep_ranges<T: InRange>(items: &[T])
    ensures { AllByRecursion T.in_range items.now }
{
    for item in items {
        item.keeps_range();
    }
}

impl InRange for u8 {
    ghost use Rattle.std.specs.Prelude.{ℕ, ◌<◌};

    ghost in_range = { λ (octet : ℕ). octet < 256 };

    fn keeps_range(&self) {
        let _octet = *self;
    }
}

impl InRange for u32 {
    ghost use Rattle.std.specs.Prelude.{ℕ, ◌<◌, ◌^◌};

    ghost in_range = { λ (number : ℕ). number < 2 ^ 32 };

    fn keeps_range(&self) {
        let _number = *self;
    }
}

impl InRange for Text {
    ghost use Rattle.dir_records.specs.IsDirectory.{IsText};

    ghost in_range = { IsText };

    fn keeps_range(&self) {
        let _text = self.as_str();
    }
}

impl InRange for Realm {
    ghost use Rattle.dir_records.specs.IsDirectory.{IsText};

    ghost in_range = { IsText };

    fn keeps_range(&self) {
        let _name = self.as_str();
    }
}

impl InRange for Sid {
    ghost use Rattle.dir_records.specs.IsDirectory.{IsSidInRange};

    ghost in_range = { IsSidInRange };

    fn keeps_range(&self) {
        let _authority = self.authority();
        keep_ranges(self.numbers());
    }
}

impl InRange for KeyRec {
    ghost use Rattle.dir_records.specs.IsDirectory.{IsKeyInRange};

    ghost in_range = { IsKeyInRange };

    fn keeps_range(&self) {
        let _version = self.version;
        keep_ranges(&self.key.raw);
    }
}

impl InRange for Account {
    ghost use Rattle.dir_records.specs.IsDirectory.{IsAccountInRange};

    ghost in_range = { IsAccountInRange };

    fn keeps_range(&self) {
        let _number = self.number;
        self.name.keeps_range();
        self.key.keeps_range();
        self.salt.keeps_range();
        keep_ranges(self.spns.as_slice());
        keep_ranges(self.classic.as_slice());
        keep_ranges(self.resource.as_slice());
        keep_ranges(self.groups.as_slice());
    }
}

impl InRange for Trust {
    ghost use Rattle.dir_records.specs.IsDirectory.{IsTrustInRange};

    ghost in_range = { IsTrustInRange };

    fn keeps_range(&self) {
        self.partner.keeps_range();
        self.key.keeps_range();
        keep_ranges(self.reach.as_slice());
    }
}

impl InRange for RealmRec {
    ghost use Rattle.dir_records.specs.IsDirectory.{IsRealmInRange};

    ghost in_range = { IsRealmInRange };

    fn keeps_range(&self) {
        let _life = self.max_life;
        self.name.keeps_range();
        self.sid.keeps_range();
        self.krbtgt.keeps_range();
        keep_ranges(self.accounts.as_slice());
        keep_ranges(self.trusts.as_slice());
    }
}

impl InRange for SpentNumber {
    ghost use Rattle.dir_records.specs.IsDirectory.{IsSpentNumberInRange};

    ghost in_range = { IsSpentNumberInRange };

    fn keeps_range(&self) {
        let _number = self.number;
        self.realm.keeps_range();
    }
}

impl InRange for Contents {
    ghost use Rattle.dir_records.specs.IsDirectory.{IsInRange};

    ghost in_range = { IsInRange };

    fn keeps_range(&self) {
        keep_ranges(self.realms.as_slice());
        keep_ranges(self.spent_keys.as_slice());
        keep_ranges(self.spent_numbers.as_slice());
    }
}
