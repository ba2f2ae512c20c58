//! Realms and their trusts after a change.
ghost use Rattle.std.specs.Prelude.{◌≡◌, IfOk, OnOk, map};
ghost use Rattle.dir_records.specs.Changes.{partner_of};
ghost use Rattle.dir_core.specs.Edits.{edited_realm, edited_trust, is_named, life_after, realm_after, trust_after};

use crate::account_edits::{accounts_after, without};
use dir_records::{Change, RealmRec, Trust};
use krb_names::{Items, TryClone};
use std::alloc::{AllocError, Global};

/// The realms after a change.
pub(crate) fn realms_after(
    alloc: Global,
    change: &Change,
    realms: &[RealmRec],
) -> Result<Items<RealmRec>, AllocError>
    ensures { IfOk result (λ after. after ≡ map (realm_after change.now) realms.now) }
{
    let mut after = Items::new(alloc);
    for realm in realms {
        after.push(realm_after(alloc, change, realm)?)?;
    }
    Ok(after)
}

fn realm_after(alloc: Global, change: &Change, realm: &RealmRec) -> Result<RealmRec, AllocError>
    ensures { IfOk result (λ after. after ≡ realm_after change.now realm.now) }
{
    if realm.name.as_str() == change.realm() {
        edited_realm(alloc, change, realm)
    } else {
        realm.try_clone(alloc)
    }
}

fn edited_realm(alloc: Global, change: &Change, realm: &RealmRec) -> Result<RealmRec, AllocError>
    ensures { IfOk result (λ after. after ≡ edited_realm change.now realm.now) }
{
    Ok(RealmRec {
        name: realm.name.try_clone(alloc)?,
        sid: realm.sid,
        krbtgt: realm.krbtgt,
        max_life: life_after(change, realm.max_life),
        accounts: accounts_after(alloc, change, realm.accounts.as_slice())?,
        trusts: trusts_after(alloc, change, realm.trusts.as_slice())?,
    })
}

fn life_after(change: &Change, old: u64) -> u64
    ensures { result ≡ life_after change.now old }
{
    match change {
        Change::SetLife(_, life) => *life,
        _ => old,
    }
}

fn trusts_after(
    alloc: Global,
    change: &Change,
    trusts: &[Trust],
) -> Result<Items<Trust>, AllocError>
    ensures { IfOk result (λ after. after ≡ map (trust_after change.now) trusts.now) }
{
    let mut after = Items::new(alloc);
    for trust in trusts {
        after.push(trust_after(alloc, change, trust)?)?;
    }
    Ok(after)
}

fn trust_after(alloc: Global, change: &Change, trust: &Trust) -> Result<Trust, AllocError>
    ensures { IfOk result (λ after. after ≡ trust_after change.now trust.now) }
{
    let mut after = trust.try_clone(alloc)?;
    if is_changed(change, trust) {
        edit_trust(alloc, change, &mut after)?;
        Ok(after)
    } else {
        Ok(after)
    }
}

/// Whether the change is made to this trust.
fn is_changed(change: &Change, trust: &Trust) -> bool
    ensures { result ≡ is_named (partner_of change.now) trust.now.partner }
{
    match change.partner() {
        Some(partner) => trust.partner.as_str() == partner,
        None => false,
    }
}

fn edit_trust(alloc: Global, change: &Change, trust: &mut Trust) -> Result<(), AllocError>
    ensures { OnOk result (trust.new ≡ edited_trust change.now trust.old) }
{
    match change {
        Change::AddReach(_, _, reach) => trust.reach.push(reach.try_clone(alloc)?)?,
        Change::RemoveReach(_, _, reach) => {
            trust.reach = without(alloc, reach, trust.reach.as_slice())?
        }
        _ => {}
    }
    Ok(())
}
