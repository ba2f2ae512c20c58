//! What holds of names.
ghost use Rattle.std.specs.Prelude.{◌≡◌, ◌↔◌, ℕ, Some, true};
ghost use Rattle.krb_names.specs.declared.principal.Principal.{Principal};
ghost use Rattle.dir_records.specs.DirectoryValue.{DirectoryValue};
ghost use Rattle.kdc_records.specs.declared.decision.Aim.TheVariants.{Account};
ghost use Rattle.dir_records.specs.WellFormed.{is_well_formed};
ghost use Rattle.dir_core.specs.Lookups.{account_at, account_of, place_of};
ghost use Rattle.route_rules.specs.Requestor.{requestor_account};
ghost use Rattle.route_rules.specs.Aims.{resolve, resolve_account};

/// A name aims at an account of this realm exactly where it gives that account.
#[tactic(auto, unfolding(crate::specs::Aims::resolve))]
pub fn names_keep_laws()
    ensures { (dir : DirectoryValue) (realm account : ℕ) (name : Principal) → (resolve dir realm name ≡ Some (Account account)) ↔ (resolve_account dir realm name ≡ Some (realm, account)) }
{}

/// The account that asks a realm is the one that stands there by its name in the whole directory, as questions look it up.
pub fn requestors_are_accounts()
    ensures place { (dir : DirectoryValue) (at account : ℕ) (client : Principal) → is_well_formed dir ≡ true → (requestor_account dir at client ≡ Some account) ↔ (place_of dir client ≡ Some (at, account)) }
    ensures account { (dir : DirectoryValue) (at account : ℕ) (client : Principal) → is_well_formed dir ≡ true → requestor_account dir at client ≡ Some account → account_of dir client ≡ account_at dir at account }
{}
