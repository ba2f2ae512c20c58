//! The limits of a directory, an own choice.

pub(crate) const MAX_REALMS: usize = 64;

pub(crate) const MAX_ACCOUNTS: usize = 100_000;

/// The most spent keys, and the most spent numbers.
pub(crate) const MAX_SPENT: usize = 100_000;

pub(crate) const MAX_TRUSTS: usize = 32;

pub(crate) const MAX_REACH: usize = 63;

pub(crate) const MAX_SPNS: usize = 32;

pub(crate) const MAX_CLASSIC: usize = 256;

pub(crate) const MAX_RESOURCE: usize = 256;

pub(crate) const MAX_GROUPS: usize = 128;

pub(crate) const MAX_SALT: usize = 1024;
/// The most sub-authorities of a realm's SID, which leaves room for an account's number.
pub(crate) const MAX_DOMAIN_SUBS: usize = 14;
/// The longest life of a ticket, in seconds: 365 days.
pub(crate) const MAX_LIFE: u64 = 31_536_000;
