//! The index of the service principal names of all realms.
ghost use Rattle.std.specs.Prelude.{◌≡◌, ℕ, ◌≤◌, All, IfOk, List, OnOk, length, position};
ghost use Rattle.kdc_prelude.specs.Texts.{is_one_of};
ghost use Rattle.dir_indexes.specs.Places.{pair_of_text};
ghost use Rattle.dir_core.specs.Indexed.{in_account, in_realm};
ghost use Rattle.dir_core.specs.Lookups.{has_spn, spn_place_from};

use dir_indexes::PairIndex;
use dir_records::{Account, RealmRec};
use std::alloc::{AllocError, Global};

/// Where the account of each service principal name stands.
pub(crate) fn index_spns(alloc: Global, realms: &[RealmRec]) -> Result<PairIndex, AllocError>
    requires few { length realms.now ≤ 64 }
    requires accounts { All (λ realm. length realm.accounts ≤ 100000) realms.now }
    ensures { IfOk result (λ index. (spn : List ℕ) → pair_of_text index spn ≡ spn_place_from spn 0 realms.now) }
{
    let mut index = PairIndex::new(alloc);
    for (i, realm) in realms.iter().enumerate() {
        add_accounts(alloc, &mut index, i as u32, realm.accounts.as_slice())?;
    }
    Ok(index)
}

/// Adds the names of the accounts of the realm at an index.
fn add_accounts(
    alloc: Global,
    index: &mut PairIndex,
    realm: u32,
    accounts: &[Account],
) -> Result<(), AllocError>
    requires { length accounts.now ≤ 100000 }
    ensures { OnOk result ((spn : List ℕ) → pair_of_text index.new spn ≡ in_realm realm (pair_of_text index.old spn) (position (has_spn spn) accounts.now)) }
{
    for (i, account) in accounts.iter().enumerate() {
        add_account(alloc, index, (realm, i as u32), account)?;
    }
    Ok(())
}

/// Adds the names of the account at a place.
fn add_account(
    alloc: Global,
    index: &mut PairIndex,
    place: (u32, u32),
    account: &Account,
) -> Result<(), AllocError>
    ensures { OnOk result ((spn : List ℕ) → pair_of_text index.new spn ≡ in_account place (pair_of_text index.old spn) (is_one_of account.now.spns spn)) }
{
    for spn in account.spns.as_slice() {
        index.add(alloc, spn.as_str(), place)?;
    }
    Ok(())
}
