//! What holds of these layouts.

ghost use Rattle.std.specs.Prelude.{ℕ, List, ◌≤◌};
ghost use Rattle.ndr_core.specs.Laws.{IsLayout};
ghost use Rattle.ndr_values.specs.declared.text.StringHead.{StringHead};
ghost use Rattle.ndr_values.specs.Sids.{packed_sid, rpc_sid};
ghost use Rattle.ndr_values.specs.Texts.{string_head, text_of};

/// Each of these layouts is read exactly where it stands, and what is written is read again.
pub fn keeps_laws()
    ensures sids { IsLayout packed_sid × ((most : ℕ) → IsLayout (rpc_sid most)) }
    ensures strings { IsLayout string_head × ((head : StringHead) → IsLayout (text_of head)) }
{}
