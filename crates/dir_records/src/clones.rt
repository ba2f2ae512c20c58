//! Copies of what the directory keeps.
use crate::records::{Account, Contents, KeyRec, RealmRec, SpentNumber, Trust};
use krb_names::TryClone;
use std::alloc::{AllocError, Global};

impl TryClone for KeyRec {
    fn try_clone(&self, _alloc: Global) -> Result<KeyRec, AllocError> {
        Ok(*self)
    }
}

impl TryClone for Account {
    fn try_clone(&self, alloc: Global) -> Result<Account, AllocError> {
        Ok(Account {
            name: self.name.try_clone(alloc)?,
            number: self.number,
            key: self.key,
            salt: self.salt.try_clone(alloc)?,
            spns: self.spns.try_clone(alloc)?,
            disabled: self.disabled,
            not_delegated: self.not_delegated,
            trusted_to_auth: self.trusted_to_auth,
            preauth: self.preauth,
            classic: self.classic.try_clone(alloc)?,
            resource: self.resource.try_clone(alloc)?,
            groups: self.groups.try_clone(alloc)?,
        })
    }
}

impl TryClone for Trust {
    fn try_clone(&self, alloc: Global) -> Result<Trust, AllocError> {
        Ok(Trust {
            partner: self.partner.try_clone(alloc)?,
            key: self.key,
            reach: self.reach.try_clone(alloc)?,
        })
    }
}

impl TryClone for RealmRec {
    fn try_clone(&self, alloc: Global) -> Result<RealmRec, AllocError> {
        Ok(RealmRec {
            name: self.name.try_clone(alloc)?,
            sid: self.sid,
            krbtgt: self.krbtgt,
            max_life: self.max_life,
            accounts: self.accounts.try_clone(alloc)?,
            trusts: self.trusts.try_clone(alloc)?,
        })
    }
}

impl TryClone for SpentNumber {
    fn try_clone(&self, alloc: Global) -> Result<SpentNumber, AllocError> {
        Ok(SpentNumber {
            realm: self.realm.try_clone(alloc)?,
            number: self.number,
        })
    }
}

impl TryClone for Contents {
    fn try_clone(&self, alloc: Global) -> Result<Contents, AllocError> {
        Ok(Contents {
            realms: self.realms.try_clone(alloc)?,
            spent_keys: self.spent_keys.try_clone(alloc)?,
            spent_numbers: self.spent_numbers.try_clone(alloc)?,
        })
    }
}
