//! TRUST: a realm's trust with a partner.
ghost use Rattle.std.specs.Prelude.{◌≡◌, ◌≤◌, length};
ghost use Rattle.serde_json.specs.View.{items_view, view};
ghost use Rattle.dir_text.specs.Gives.{Gives};
ghost use Rattle.dir_text.specs.TrustText.{trust_of, trusts_of};

use crate::key::key_in;
use crate::lists::realm_names_in;
use crate::members::{check_members, check_object, required};
use crate::values::realm_name_of;
use dir_core::{DirPlace, DirRefusal, Trust, Trusts};
use krb_names::Items;
use serde_json::Value;
use std::alloc::Global;

/// Reads a trust.
#[tactic(auto, unfolding(crate::specs::TrustText::trust_of))]
fn trust_of(alloc: Global, place: DirPlace, value: &Value) -> Result<Trust, DirRefusal>
    ensures { Gives result (trust_of place (view value.now)) }
{
    check_object(place, value)?;
    let partner = realm_name_of(alloc, place, required(place, value.get("partner"))?)?;
    let key = key_in(alloc, place, value.get("key"))?;
    let reach = realm_names_in(alloc, place, 63, value.get("reach"))?;
    check_members(alloc, place, value, &["partner", "key", "reach"])?;
    Ok(Trust {
        partner,
        key,
        reach,
    })
}

/// Reads the trusts of realm `i`.
pub(crate) fn trusts_of(alloc: Global, i: u32, values: &[Value]) -> Result<Trusts, DirRefusal>
    requires { length values.now ≤ 32 }
    ensures { Gives result (trusts_of i 1 (items_view values.now)) }
{
    let mut trusts = Items::new(alloc);
    let mut n = 1;
    for value in values {
        trusts.push(trust_of(alloc, DirPlace::Trust(i, n), value)?)?;
        n += 1;
    }
    Ok(trusts)
}
