//! What directories keep.
ghost use Rattle.std.specs.Prelude.{◌≡◌, true};
ghost use Rattle.dir_records.specs.DirectoryValue.{DirectoryValue};
ghost use Rattle.dir_records.specs.IsDirectory.{IsConsistent};
ghost use Rattle.dir_records.specs.WellFormed.{is_well_formed};

/// Contents are well formed exactly where they are consistent: each member has its form and limit, what has to be distinct
/// is, and what is referred to is there.
pub fn well_formed_where_consistent()
    ensures ok { (dir : DirectoryValue) → is_well_formed dir ≡ true → IsConsistent dir }
    ensures only { (dir : DirectoryValue) → IsConsistent dir → is_well_formed dir ≡ true }
{}
