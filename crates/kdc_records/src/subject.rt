//! Of whom a ticket speaks, and how it was delegated.
ghost use Rattle.std.specs.Prelude.{◌≡◌};
ghost use Rattle.kdc_records.specs.Parties.{is_user};

use krb_names::{Numbers, Principal, Realm, Sid, Text, Texts, TryClone};
use std::alloc::{AllocError, Global};

/// The user in a ticket's PAC.
#[derive(Debug, Drop)]
pub struct Subject {
    /// EffectiveName: the account's name, one name text.
    pub name: Text,
    /// LogonDomainName: the realm that the user is of.
    pub realm: Realm,
    /// The user's SID: the realm's, followed by the user's number; of 2 to 15 sub-authorities.
    pub sid: Sid,
    /// UserAccountControl.
    pub control: u32,
    /// The numbers of the user's groups in its realm, at most 1,024.
    pub groups: Numbers,
}

/// How a ticket came to its service by constrained delegation (MS-PAC, section 2.9).
#[derive(Debug, Drop)]
pub struct Delegation {
    /// S4U2proxyTarget: the service that was asked for, its parts joined by `/`.
    pub target: Text,
    /// S4UTransitedServices: the services that delegated, `name@REALM` each, the first one first; at most 32.
    pub services: Texts,
}

/// Whether a client is the user of this name in this realm: whether the subject and the client of a ticket are one.
pub fn is_user(name: &str, realm: &str, client: &Principal) -> bool
    ensures { result ≡ is_user name.now realm.now client.now }
{
    match client.parts.as_slice() {
        [part] => part.as_str() == name && client.realm.as_str() == realm,
        _ => false,
    }
}

impl TryClone for Subject {
    fn try_clone(&self, alloc: Global) -> Result<Subject, AllocError> {
        Ok(Subject {
            name: self.name.try_clone(alloc)?,
            realm: self.realm.try_clone(alloc)?,
            sid: self.sid,
            control: self.control,
            groups: self.groups.try_clone(alloc)?,
        })
    }
}

impl TryClone for Delegation {
    fn try_clone(&self, alloc: Global) -> Result<Delegation, AllocError> {
        Ok(Delegation {
            target: self.target.try_clone(alloc)?,
            services: self.services.try_clone(alloc)?,
        })
    }
}
