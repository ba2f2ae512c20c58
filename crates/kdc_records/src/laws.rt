//! What holds of the parties that tickets are for. This function does nothing.
ghost use Rattle.std.specs.Prelude.{◌≡◌, ◌↔◌, true};
ghost use Rattle.kdc_records.specs.Parties.{Party, same_party};

/// Two parties pass the test exactly where they are equal.
pub fn parties_keep_laws()
    ensures exact { (a b : Party) → (same_party a b ≡ true) ↔ (a ≡ b) }
{}
