//! What holds of changes to a directory.
ghost use Rattle.std.specs.Prelude.{◌≡◌, ◌++◌, IfSome, Err, None, Ok, Some, map, option_and_then, true};
ghost use Rattle.std.specs.Option.{option_to_list};
ghost use Rattle.kdc_prelude.specs.Verdicts.{first_failing};
ghost use Rattle.dir_records.specs.declared.change.Change.{Change};
ghost use Rattle.dir_records.specs.declared.refusal.DirCause.{DirCause};
ghost use Rattle.dir_records.specs.declared.refusal.DirCause.TheVariants.{TooMany};
ghost use Rattle.dir_records.specs.Changes.{IsChangeInRange, has_forms};
ghost use Rattle.dir_records.specs.DirectoryValue.{DirectoryValue};
ghost use Rattle.dir_records.specs.IsDirectory.{IsDirectory};
ghost use Rattle.dir_records.specs.Members.{members_refusal};
ghost use Rattle.dir_records.specs.WellFormed.{is_well_formed};
ghost use Rattle.dir_core.specs.Changed.{change_cause, changed, own_rows};
ghost use Rattle.dir_core.specs.Edits.{changed_account, edited, key_taken, number_taken, realm_after};

/// After a change whose values have their forms, no member of a directory's realms breaks more than a limit.
pub fn only_limits_are_left()
    ensures { (dir : DirectoryValue) (change : Change) → is_well_formed dir ≡ true → has_forms change ≡ true → IfSome (members_refusal (edited dir change).realms) (λ refusal. refusal.cause ≡ TooMany) }
{}

/// A change that is allowed, of values in their ranges, makes a directory of one.
pub fn changes_keep_directories()
    ensures { (dir after : DirectoryValue) (change : Change) → IsDirectory dir → IsChangeInRange change → changed dir change ≡ Ok after → IsDirectory after }
{}

/// A change is made exactly where no cause refuses it, and then makes the contents after it. Else it is refused for its
/// first cause: by itself, before what it would make.
pub fn changes_have_causes()
    ensures ok { (dir : DirectoryValue) (change : Change) → change_cause dir change ≡ None → changed dir change ≡ Ok (edited dir change) }
    ensures err { (dir : DirectoryValue) (change : Change) (cause : DirCause) → change_cause dir change ≡ Some cause → changed dir change ≡ Err cause }
    ensures own { (dir : DirectoryValue) (change : Change) (cause : DirCause) → first_failing (own_rows dir change) ≡ Some cause → changed dir change ≡ Err cause }
    ensures only { (dir after : DirectoryValue) (change : Change) → changed dir change ≡ Ok after → (change_cause dir change ≡ None) × (after ≡ edited dir change) }
{}

/// The contents after a change: each realm after it, and the key and the number that it took away spent.
pub fn edits_by_parts()
    ensures realms { (dir : DirectoryValue) (change : Change) → (edited dir change).realms ≡ map (realm_after change) dir.realms }
    ensures spent_keys { (dir : DirectoryValue) (change : Change) → (edited dir change).spent_keys ≡ dir.spent_keys ++ option_to_list (option_and_then (key_taken change) (changed_account dir change)) }
    ensures spent_numbers { (dir : DirectoryValue) (change : Change) → (edited dir change).spent_numbers ≡ dir.spent_numbers ++ option_to_list (option_and_then (number_taken change) (changed_account dir change)) }
{}
