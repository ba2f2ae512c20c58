//! For whom a ticket is sealed.
ghost use Rattle.std.specs.Prelude.{◌≡◌};

use krb_names::{Text, TryClone};
use std::alloc::{AllocError, Global};

/// Whose key a ticket is sealed with, and the version of that key (kvno).
#[derive(Debug, Drop)]
pub enum Holder {
    /// The ticket-granting service of the realm that issued the ticket: a local ticket-granting ticket.
    Krbtgt {
        realm: Text,
        version: u32,
    },
    /// The trust of the issuing realm in a partner: a cross-realm ticket-granting ticket, `krbtgt/PARTNER`.
    Trust {
        realm: Text,
        partner: Text,
        version: u32,
    },
    /// The account of this number in the realm: a service ticket.
    Account {
        realm: Text,
        number: u32,
        version: u32,
    },
}

impl Holder {
    ghost use Rattle.kdc_records.specs.Parties.{version_of};

    /// The version of the key.
    pub fn version(&self) -> u32
        ensures { result ≡ version_of self.now }
    {
        match self {
            Holder::Krbtgt { version, .. }
            | Holder::Trust { version, .. }
            | Holder::Account { version, .. } => *version,
        }
    }
}

impl TryClone for Holder {
    fn try_clone(&self, alloc: Global) -> Result<Holder, AllocError> {
        match self {
            Holder::Krbtgt { realm, version } => Ok(Holder::Krbtgt {
                realm: realm.try_clone(alloc)?,
                version: *version,
            }),
            Holder::Trust {
                realm,
                partner,
                version,
            } => Ok(Holder::Trust {
                realm: realm.try_clone(alloc)?,
                partner: partner.try_clone(alloc)?,
                version: *version,
            }),
            Holder::Account {
                realm,
                number,
                version,
            } => Ok(Holder::Account {
                realm: realm.try_clone(alloc)?,
                number: *number,
                version: *version,
            }),
        }
    }
}
