//! The directory, and looking things up in it.
ghost use Rattle.std.specs.Prelude.{◌≡◌, ◌≢◌, ◌<◌, ◌≤◌, ◌^◌, All, IfErr, IfOk, IfSome, OnErr, OnOk, count_by, length, map, slice_get, sum_by, true};
ghost use Rattle.std.specs.Option.{option_copied};
ghost use Rattle.kdc_prelude.specs.Answers.{Answers};
ghost use Rattle.kdc_prelude.specs.Distinct.{all_distinct};
ghost use Rattle.kdc_prelude.specs.Results.{unless_refused};
ghost use Rattle.kdc_prelude.specs.Texts.{same_text};
ghost use Rattle.kdc_prelude.specs.Verdicts.{first_failing};
ghost use Rattle.dir_core.specs.Changed.{changed, own_rows};
ghost use Rattle.dir_core.specs.Edits.{changed_account, changed_trust, edited};
ghost use Rattle.dir_core.specs.Indexed.{IsRealmIndexed};
ghost use Rattle.dir_core.specs.Lookups.{account_at, account_named, account_of, account_serving, accounts_at, has_sid, has_spn, is_reached, next_hop, place_of, realm_named, sid_at, sid_place, spn_place, trusts_at};
ghost use Rattle.dir_records.specs.IsDirectory.{IsDirectory, IsRealm};
ghost use Rattle.dir_records.specs.WellFormed.{directory_of_realms, first_refusal, is_well_formed, no_memory};

use crate::allowed::{find_trust, is_account_found, is_trust_found};
use crate::indexes::{Indexes, RealmIndex};
use crate::lookups::{has_trust_reaching, narrow, place_of_sid, place_of_trust};
use crate::realm_edits::realms_after;
use crate::taken::{spend_key, spend_number};
use dir_records::{
    Account, Change, Contents, DirCause, DirRefusal, InRange, RealmRec, Trust, find_change_cause,
    find_refusal,
};
use krb_names::{Items, Principal, Sid, TryClone};
use std::alloc::{AllocError, Global};
use std::marker::Model;

/// Realms with their accounts and trusts, and the keys and numbers that are spent, which keep all forms and limits of a
/// directory, with ordered indexes beside the lists.
#[derive(Debug, Drop)]
pub struct Directory {
    alloc: Global,
    contents: Contents,
    indexes: Indexes,
}

impl Model for Directory {
    ghost use Rattle.std.specs.Prelude.{◌≡◌, true};
    ghost use Rattle.dir_records.specs.DirectoryValue.{DirectoryValue};
    ghost use Rattle.dir_records.specs.WellFormed.{is_well_formed};
    ghost use Rattle.dir_core.specs.Indexed.{IsIndexed};

    ghost Value = { DirectoryValue };

    ghost view = { λ d. d.contents };

    ghost invariant = { λ d. (is_well_formed d.contents ≡ true) × IsIndexed d.indexes d.contents };
}

impl Directory {
    /// The directory of these realms, which are dropped where they make none.
    ///
    /// # Errors
    /// The first reason for which they make none, with its place: a member that breaks a condition or a limit; else
    /// `Duplicate`; else `SameKey`; else `UnknownRef`. `NoMemory` at `Whole`.
    pub fn new(alloc: Global, realms: Vec<RealmRec>) -> Result<Directory, DirRefusal>
        ensures { Answers no_memory result (directory_of_realms realms.items) }
    {
        Directory::of_contents(
            alloc,
            Contents {
                realms: Items::from_vec(realms),
                spent_keys: Items::new(alloc),
                spent_numbers: Items::new(alloc),
            },
        )
    }

    /// The directory of these contents, with keys and numbers that are spent already, as after changes that were made
    /// before. The contents are dropped where they make none.
    ///
    /// # Errors
    /// As `new`; of the limits, that of the spent keys and the spent numbers is told last, `TooMany` at `Whole`.
    #[tactic(auto, unfolding(dir_records::specs::WellFormed::is_well_formed))]
    pub fn of_contents(alloc: Global, contents: Contents) -> Result<Directory, DirRefusal>
        ensures { Answers no_memory result (unless_refused (first_refusal contents) contents) }
    {
        match find_refusal(alloc, &contents)? {
            None => Ok(Directory::with_indexes(alloc, contents)?),
            Some(refusal) => Err(refusal),
        }
    }

    /// The directory of well-formed contents, with their indexes.
    fn with_indexes(alloc: Global, contents: Contents) -> Result<Directory, AllocError>
        requires { is_well_formed contents ≡ true }
        ensures { IfOk result (λ directory. directory ≡ contents) }
    {
        let indexes = Indexes::of_contents(alloc, &contents)?;
        Ok(Directory {
            alloc,
            contents,
            indexes,
        })
    }

    /// Tells that it is a directory: consistent, and in the ranges of the types.
    pub fn keeps_directory(&self)
        ensures { IsDirectory self.now }
    {
        self.contents.keeps_range();
    }

    /// How many realms there are.
    pub fn realm_count(&self) -> u32
        ensures value { result ≡ length self.now.realms }
        ensures few { result ≤ 64 }
        // What every directory is.
        ensures well { is_well_formed self.now ≡ true }
    {
        self.contents.realms.len() as u32
    }

    /// The realm at an index.
    pub fn realm(&self, i: u32) -> &RealmRec
        requires { i < length self.now.realms }
        ensures found { slice_get self.now.realms i ≡ Some result.now }
        ensures forms { IsRealm result.now }
        ensures accounts { length result.now.accounts ≤ 100000 }
        ensures trusts { length result.now.trusts ≤ 32 }
        ensures names { all_distinct same_text (map (λ account. account.name) result.now.accounts) ≡ true }
    {
        &self.contents.realms.as_slice()[i as usize]
    }

    /// The index of the realm of this name.
    pub fn realm_by_name(&self, name: &str) -> Option<u32>
        ensures found { result ≡ realm_named self.now name.now }
        ensures within { IfSome result (λ i. i < length self.now.realms) }
        ensures only { count_by (λ realm. same_text realm.name name.now) self.now.realms ≤ 1 }
    {
        self.indexes.names.find(name)
    }

    /// The index of the account of this name in the realm at an index.
    pub fn account_by_name(&self, realm: u32, name: &str) -> Option<u32>
        requires { realm < length self.now.realms }
        ensures found { result ≡ account_named self.now realm name.now }
        ensures within { IfSome result (λ account. account < length (accounts_at self.now realm)) }
        ensures only { IfSome (slice_get self.now.realms realm) (λ realm. count_by (λ account. same_text account.name name.now) realm.accounts ≤ 1) }
    {
        self.index_of(realm).names.find(name)
    }

    /// The indexes of the realm at an index.
    fn index_of(&self, realm: u32) -> &RealmIndex
        requires { realm < length self.now.realms }
        ensures indexed { IfSome (slice_get self.now.realms realm) (λ realm. IsRealmIndexed result.now realm) }
        ensures well { is_well_formed self.now ≡ true }
    {
        &self.indexes.realms.as_slice()[realm as usize]
    }

    /// The account at an index in the realm at an index, if there is one.
    pub fn account_at(&self, realm: u32, account: u32) -> Option<&Account>
        requires { realm < length self.now.realms }
        ensures { option_copied result ≡ account_at self.now realm account }
    {
        self.realm(realm).accounts.get(account as usize)
    }

    /// The SID of the account at an index in the realm at an index: the realm's, followed by the account's number.
    pub fn account_sid(&self, realm: u32, account: u32) -> Sid
        requires realm { realm < length self.now.realms }
        requires account { account < length (accounts_at self.now realm) }
        ensures { sid_at self.now realm account ≡ Some result }
    {
        let realm = self.realm(realm);
        let accounts = realm.accounts.as_slice();
        realm.sid.followed_by(accounts[account as usize].number)
    }

    /// The index of the realm and, in it, the index of the account that has this service principal name.
    pub fn account_by_spn(&self, spn: &str) -> Option<(u32, u32)>
        ensures found { result ≡ spn_place self.now spn.now }
        ensures within { IfSome result (λ place. place.0 < length self.now.realms) }
        ensures account { IfSome result (λ place. place.1 < length (accounts_at self.now place.0)) }
        ensures only { sum_by (λ realm. count_by (has_spn spn.now) realm.accounts) self.now.realms ≤ 1 }
    {
        self.indexes.spns.find(spn)
    }

    /// Where the account of this name stands, the index of its realm and its own there: a name of one part, which is
    /// the account's name in its realm.
    pub fn place_of(&self, name: &Principal) -> Option<(u32, u32)>
        ensures found { result ≡ place_of self.now name.now }
        ensures within { IfSome result (λ place. place.0 < length self.now.realms) }
        ensures account { IfSome result (λ place. place.1 < length (accounts_at self.now place.0)) }
    {
        match name.parts.as_slice() {
            [part] => match self.realm_by_name(name.realm.as_str()) {
                Some(realm) => match self.account_by_name(realm, part.as_str()) {
                    Some(account) => Some((realm, account)),
                    None => None,
                },
                None => None,
            },
            _ => None,
        }
    }

    /// The account of this name.
    pub fn account_of(&self, name: &Principal) -> Option<&Account>
        ensures { option_copied result ≡ account_of self.now name.now }
    {
        match self.place_of(name) {
            Some((realm, account)) => self.account_at(realm, account),
            None => None,
        }
    }

    /// The account of the realm of this name that has this service principal name.
    pub fn account_serving(&self, realm: &str, spn: &str) -> Option<&Account>
        ensures { option_copied result ≡ account_serving self.now realm.now spn.now }
    {
        match (self.realm_by_name(realm), self.account_by_spn(spn)) {
            (Some(realm), Some((at, account))) => {
                if at == realm {
                    self.account_at(at, account)
                } else {
                    None
                }
            }
            _ => None,
        }
    }

    /// The index of the realm and, in it, the index of the account that has this SID: the realm's, followed by the
    /// account's number.
    pub fn account_by_sid(&self, sid: &Sid) -> Option<(u32, u32)>
        ensures found { result ≡ sid_place self.now sid.now }
        ensures within { IfSome result (λ place. place.0 < length self.now.realms) }
        ensures account { IfSome result (λ place. place.1 < length (accounts_at self.now place.0)) }
        ensures only { sum_by (λ realm. count_by (has_sid realm.sid sid.now) realm.accounts) self.now.realms ≤ 1 }
    {
        place_of_sid(
            self.contents.realms.as_slice(),
            self.indexes.realms.as_slice(),
            sid,
        )
    }

    /// The index of the first trust of one realm that leads to another: whose partner is that realm, or whose reach
    /// list has it.
    pub fn next_hop(&self, from: u32, to: u32) -> Option<u32>
        requires from { from < length self.now.realms }
        requires to { to < length self.now.realms }
        ensures found { result ≡ next_hop self.now from to }
        ensures within { IfSome result (λ trust. trust < length (trusts_at self.now from)) }
    {
        let name = self.realm(to).name.as_str();
        narrow(place_of_trust(self.realm(from).trusts.as_slice(), name))
    }

    /// Whether the realm at one index has a trust with the realm at another that reaches the realm of this name.
    pub fn reached(&self, at: u32, from: u32, name: &str) -> bool
        requires at { at < length self.now.realms }
        requires from { from < length self.now.realms }
        ensures { result ≡ is_reached self.now at from name.now }
    {
        let partner = self.realm(from).name.as_str();
        has_trust_reaching(self.realm(at).trusts.as_slice(), partner, name)
    }

    /// Makes a change, if it is allowed. An `Err` changes nothing.
    ///
    /// # Errors
    /// The first of these that holds: `BadField` where a name, number, key or life has not its form or range;
    /// `UnknownRef` where the realm, account, trust or entry to be removed is not there, or a reached realm is no other
    /// realm; `Duplicate` where a name, number, SPN or entry is there already, or the number is spent; `SameKey` where
    /// the key has another holder, or is spent; `TooMany` where a limit would be passed; `NoMemory`.
    pub fn change(&mut self, change: &Change) -> Result<(), DirCause>
        ensures ok { OnOk result (changed self.old change.now ≡ Ok self.new) }
        ensures cause { IfErr result (λ cause. cause ≢ DirCause.NoMemory → changed self.old change.now ≡ Err cause) }
        ensures unchanged { OnErr result (self.new ≡ self.old) }
    {
        let changed = self.changed(change)?;
        *self = changed;
        Ok(())
    }

    #[tactic(auto, unfolding(crate::specs::Changed::changed))]
    fn changed(&self, change: &Change) -> Result<Directory, DirCause>
        ensures { Answers DirCause.NoMemory result (changed self.now change.now) }
    {
        if let Some(cause) = self.find_own_cause(change)? {
            return Err(cause);
        }
        let contents = self.edited(change)?;
        match find_change_cause(self.alloc, &contents)? {
            None => Ok(Directory::with_indexes(self.alloc, contents)?),
            Some(cause) => Err(cause),
        }
    }

    /// Why a change is refused by itself: a form, or what it refers to.
    fn find_own_cause(&self, change: &Change) -> Result<Option<DirCause>, AllocError>
        ensures { IfOk result (λ cause. cause ≡ first_failing (own_rows self.now change.now)) }
    {
        if !change.has_forms(self.alloc)? {
            return Ok(Some(DirCause::BadField));
        }
        if self.realm_by_name(change.realm()).is_none()
            || change.account().is_some() && !is_account_found(change, self.changed_account(change))
            || change.partner().is_some() && !is_trust_found(change, self.changed_trust(change))
        {
            return Ok(Some(DirCause::UnknownRef));
        }
        Ok(None)
    }

    /// The account that a change is made to.
    fn changed_account(&self, change: &Change) -> Option<&Account>
        ensures { option_copied result ≡ changed_account self.now change.now }
    {
        match (self.realm_by_name(change.realm()), change.account()) {
            (Some(realm), Some(name)) => match self.account_by_name(realm, name) {
                Some(account) => self.account_at(realm, account),
                None => None,
            },
            _ => None,
        }
    }

    /// The trust that a change is made to.
    fn changed_trust(&self, change: &Change) -> Option<&Trust>
        ensures { option_copied result ≡ changed_trust self.now change.now }
    {
        match (self.realm_by_name(change.realm()), change.partner()) {
            (Some(realm), Some(partner)) => {
                find_trust(self.realm(realm).trusts.as_slice(), partner)
            }
            _ => None,
        }
    }

    /// The contents after a change.
    #[tactic(auto, unfolding(crate::specs::Edits::edited))]
    fn edited(&self, change: &Change) -> Result<Contents, AllocError>
        ensures value { IfOk result (λ contents. contents ≡ edited self.now change.now) }
        ensures few { IfOk result (λ contents. length contents.realms ≤ 64) }
        ensures accounts { IfOk result (λ contents. All (λ realm. length realm.accounts < 2 ^ 32) contents.realms) }
        ensures trusts { IfOk result (λ contents. All (λ realm. length realm.trusts ≤ 32) contents.realms) }
    {
        let account = self.changed_account(change);
        let mut spent_keys = self.contents.spent_keys.try_clone(self.alloc)?;
        spend_key(change, account, &mut spent_keys)?;
        let mut spent_numbers = self.contents.spent_numbers.try_clone(self.alloc)?;
        spend_number(self.alloc, change, account, &mut spent_numbers)?;
        Ok(Contents {
            realms: realms_after(self.alloc, change, self.contents.realms.as_slice())?,
            spent_keys,
            spent_numbers,
        })
    }

    /// A copy, with the same keys and numbers spent.
    pub fn try_clone(&self) -> Result<Directory, AllocError>
        ensures value { IfOk result (λ copied. copied ≡ self.now) }
    {
        Ok(Directory {
            alloc: self.alloc,
            contents: self.contents.try_clone(self.alloc)?,
            indexes: self.indexes.try_clone(self.alloc)?,
        })
    }
}
