//! What holds of the layouts of single fields.

ghost use Rattle.std.specs.Prelude.{ℕ};
ghost use Rattle.std.specs.Int.{w8, w16, w32};
ghost use Rattle.ndr_core.specs.Fields.{raw, number, pointer, pointer_to};
ghost use Rattle.ndr_core.specs.Arrays.{units, count};
ghost use Rattle.ndr_core.specs.Object.{header};
ghost use Rattle.ndr_core.specs.Laws.{IsLayout};

/// Each of these layouts is read exactly where it stands, and what is written is read again.
pub fn keeps_laws()
    ensures numbers { IsLayout (number w8) × IsLayout (number w16) × IsLayout (number w32) }
    ensures header { IsLayout header }
    ensures bytes { (n : ℕ) → IsLayout (raw n) }
    ensures strings { (said : ℕ) → IsLayout (units said) }
    ensures counts { (said : ℕ) → IsLayout (count said) }
    ensures pointers { IsLayout pointer × ((said : ℕ) → IsLayout (pointer_to said)) }
{}
