//! What is known of a request that is granted.
ghost use Rattle.std.specs.Prelude.{◌≡◌, true};
ghost use Rattle.kdc_records.specs.Decisions.{is_grant};
ghost use Rattle.as_core.specs.AsRules.{AsGrants, AsRequest, as_decision};

/// An AS-REQ that is granted keeps each of the rules.
pub fn granted_requests_keep_rules()
    ensures granted { (ask : AsRequest) → is_grant (as_decision ask) ≡ true → AsGrants ask }
{}
