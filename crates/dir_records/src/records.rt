//! What the directory keeps: realms, their accounts and their trusts.
use krb_names::{Items, Key, Numbers, Realm, Sid, Sids, Text, Texts};

/// A key and its version number (kvno), 1 to 4,294,967,295.
#[derive(Clone, Copy, Debug, PartialEq, Eq)]
pub struct KeyRec {
    pub key: Key,
    pub version: u32,
}

/// An account of a realm: a user or a service.
#[derive(Debug, Drop)]
pub struct Account {
    /// Its name, one name text.
    pub name: Text,
    /// Its relative identifier: the realm's SID followed by it is the account's SID.
    pub number: u32,
    pub key: KeyRec,
    /// What its key was derived with, beside the password (RFC 4120, section 5.2.7.5).
    pub salt: Text,
    /// Its service principal names.
    pub spns: Texts,
    pub disabled: bool,
    /// DelegationNotAllowed of MS-SFU: no ticket of this user is delegated.
    pub not_delegated: bool,
    /// TrustedToAuthenticationForDelegation of MS-SFU: what it gets by S4U2self is forwardable.
    pub trusted_to_auth: bool,
    /// Whether it has to pre-authenticate.
    pub preauth: bool,
    /// ServicesAllowedToSendForwardedTicketsTo of MS-SFU: the services, by SPN, to which it may delegate.
    pub classic: Texts,
    /// ServicesAllowedToReceiveForwardedTicketsFrom of MS-SFU: who may delegate to it, by SID.
    pub resource: Sids,
    /// The groups of this realm that it is a member of, by relative identifier.
    pub groups: Numbers,
}

/// Accounts.
pub type Accounts = Items<Account>;

/// A realm's trust in a partner, to which it refers clients under this key.
#[derive(Debug, Drop)]
pub struct Trust {
    pub partner: Realm,
    pub key: KeyRec,
    /// The realms, by name, that the trust reaches beside its partner.
    pub reach: Texts,
}

/// Trusts.
pub type Trusts = Items<Trust>;

/// A realm.
#[derive(Debug, Drop)]
pub struct RealmRec {
    pub name: Realm,
    /// The SID of the domain, of at most 14 sub-authorities.
    pub sid: Sid,
    /// The key of its ticket-granting service.
    pub krbtgt: KeyRec,
    /// How long a ticket may last, in seconds, 1 to 31,536,000.
    pub max_life: u64,
    pub accounts: Accounts,
    pub trusts: Trusts,
}

/// A number that an account of a realm had, and that no account of that realm gets again.
#[derive(Debug, Drop)]
pub struct SpentNumber {
    /// The realm's name.
    pub realm: Text,
    pub number: u32,
}

/// What a directory holds: its realms, and the keys and numbers that were taken away from accounts by a removal or a
/// new key.
#[derive(Debug, Drop)]
pub struct Contents {
    pub realms: Items<RealmRec>,
    pub spent_keys: Items<KeyRec>,
    pub spent_numbers: Items<SpentNumber>,
}
