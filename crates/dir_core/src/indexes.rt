//! Ordered indexes beside the lists of a directory.
ghost use Rattle.std.specs.Prelude.{◌≡◌, ℕ, ◌≤◌, ◌==◌, All, IfOk, List, length, position};
ghost use Rattle.std.specs.List.{AllZip};
ghost use Rattle.kdc_prelude.specs.Texts.{same_text};
ghost use Rattle.dir_indexes.specs.Places.{place_of_number, place_of_text};
ghost use Rattle.dir_records.specs.DirectoryValue.{DirectoryValue};
ghost use Rattle.dir_core.specs.Indexed.{IsIndexed, IsRealmIndexed, IsSameIndex};

use crate::spn_index::index_spns;
use dir_indexes::{NumberIndex, PairIndex, TextIndex};
use dir_records::{Account, Contents, RealmRec};
use krb_names::Items;
use std::alloc::{AllocError, Global};

/// Where the accounts of a realm stand, by name and by number.
#[derive(Debug, Drop)]
pub struct RealmIndex {
    pub names: TextIndex,
    pub numbers: NumberIndex,
}

/// Where realms stand by name, the accounts of each, and accounts by service principal name.
#[derive(Debug, Drop)]
pub struct Indexes {
    pub names: TextIndex,
    pub realms: Items<RealmIndex>,
    pub spns: PairIndex,
}

impl Indexes {
    /// The indexes of these contents.
    pub(crate) fn of_contents(alloc: Global, contents: &Contents) -> Result<Indexes, AllocError>
        requires few { length contents.now.realms ≤ 64 }
        requires accounts { All (λ realm. length realm.accounts ≤ 100000) contents.now.realms }
        ensures { IfOk result (λ indexes. IsIndexed indexes contents.now) }
    {
        let realms = contents.realms.as_slice();
        Ok(Indexes {
            names: index_realm_names(alloc, realms)?,
            realms: index_realms(alloc, realms)?,
            spns: index_spns(alloc, realms)?,
        })
    }

    /// A copy.
    pub(crate) fn try_clone(&self, alloc: Global) -> Result<Indexes, AllocError>
        ensures { IfOk result (λ copied. (dir : DirectoryValue) → IsIndexed self.now dir → IsIndexed copied dir) }
    {
        Ok(Indexes {
            names: self.names.try_clone()?,
            realms: copy_indexes(alloc, self.realms.as_slice())?,
            spns: self.spns.try_clone()?,
        })
    }
}

impl RealmIndex {
    /// The indexes of a realm.
    fn of_realm(alloc: Global, realm: &RealmRec) -> Result<RealmIndex, AllocError>
        requires { length realm.now.accounts ≤ 100000 }
        ensures { IfOk result (λ index. IsRealmIndexed index realm.now) }
    {
        let accounts = realm.accounts.as_slice();
        Ok(RealmIndex {
            names: index_account_names(alloc, accounts)?,
            numbers: index_numbers(alloc, accounts)?,
        })
    }

    /// A copy.
    fn try_clone(&self) -> Result<RealmIndex, AllocError>
        ensures { IfOk result (λ copied. IsSameIndex self.now copied) }
    {
        Ok(RealmIndex {
            names: self.names.try_clone()?,
            numbers: self.numbers.try_clone()?,
        })
    }
}

fn index_realm_names(alloc: Global, realms: &[RealmRec]) -> Result<TextIndex, AllocError>
    requires { length realms.now ≤ 64 }
    ensures { IfOk result (λ index. (name : List ℕ) → place_of_text index name ≡ position (λ realm. same_text realm.name name) realms.now) }
{
    let mut index = TextIndex::new(alloc);
    for (i, realm) in realms.iter().enumerate() {
        index.add(alloc, realm.name.as_str(), i as u32)?;
    }
    Ok(index)
}

fn index_account_names(alloc: Global, accounts: &[Account]) -> Result<TextIndex, AllocError>
    requires { length accounts.now ≤ 100000 }
    ensures { IfOk result (λ index. (name : List ℕ) → place_of_text index name ≡ position (λ account. same_text account.name name) accounts.now) }
{
    let mut index = TextIndex::new(alloc);
    for (i, account) in accounts.iter().enumerate() {
        index.add(alloc, account.name.as_str(), i as u32)?;
    }
    Ok(index)
}

fn index_numbers(alloc: Global, accounts: &[Account]) -> Result<NumberIndex, AllocError>
    requires { length accounts.now ≤ 100000 }
    ensures { IfOk result (λ index. (number : ℕ) → place_of_number index number ≡ position (λ account. account.number == number) accounts.now) }
{
    let mut index = NumberIndex::new(alloc);
    for (i, account) in accounts.iter().enumerate() {
        index.add(account.number, i as u32)?;
    }
    Ok(index)
}

fn index_realms(alloc: Global, realms: &[RealmRec]) -> Result<Items<RealmIndex>, AllocError>
    requires { All (λ realm. length realm.accounts ≤ 100000) realms.now }
    ensures { IfOk result (λ indexes. AllZip IsRealmIndexed indexes realms.now) }
{
    let mut indexes = Items::new(alloc);
    for realm in realms {
        indexes.push(RealmIndex::of_realm(alloc, realm)?)?;
    }
    Ok(indexes)
}

fn copy_indexes(alloc: Global, indexes: &[RealmIndex]) -> Result<Items<RealmIndex>, AllocError>
    ensures { IfOk result (λ copied. AllZip IsSameIndex indexes.now copied) }
{
    let mut copied = Items::new(alloc);
    for index in indexes {
        copied.push(index.try_clone()?)?;
    }
    Ok(copied)
}
