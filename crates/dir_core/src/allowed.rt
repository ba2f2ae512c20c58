//! Whether what a change refers to is there.
ghost use Rattle.std.specs.Prelude.{◌≡◌, find, nat_eq, true};
ghost use Rattle.std.specs.Option.{option_copied};
ghost use Rattle.kdc_prelude.specs.Options.{holds_of};
ghost use Rattle.kdc_prelude.specs.Texts.{same_text};
ghost use Rattle.dir_core.specs.Changed.{has_entry, has_reach};

use crate::lookups::has_text;
use dir_records::{Account, Change, Trust, is_among};

/// Whether the account is there, with the entry that is to be removed.
pub(crate) fn is_account_found(change: &Change, account: Option<&Account>) -> bool
    ensures { result ≡ holds_of (has_entry change.now) (option_copied account.entry) }
{
    match account {
        Some(account) => has_entry(change, account),
        None => false,
    }
}

fn has_entry(change: &Change, account: &Account) -> bool
    ensures { result ≡ has_entry change.now account.now }
{
    match change {
        Change::RemoveSpn(_, _, spn) => has_text(account.spns.as_slice(), spn.as_str()),
        Change::RemoveClassic(_, _, spn) => has_text(account.classic.as_slice(), spn.as_str()),
        Change::RemoveResource(_, _, sid) => is_among(sid, account.resource.as_slice()),
        Change::RemoveGroup(_, _, number) => is_among(number, account.groups.as_slice()),
        _ => true,
    }
}

/// Whether the trust is there, with the realm that is to be removed.
pub(crate) fn is_trust_found(change: &Change, trust: Option<&Trust>) -> bool
    ensures { result ≡ holds_of (has_reach change.now) (option_copied trust.entry) }
{
    match trust {
        Some(trust) => has_reach(change, trust),
        None => false,
    }
}

fn has_reach(change: &Change, trust: &Trust) -> bool
    ensures { result ≡ has_reach change.now trust.now }
{
    match change {
        Change::RemoveReach(_, _, reach) => has_text(trust.reach.as_slice(), reach.as_str()),
        _ => true,
    }
}

/// The trust with this partner.
pub(crate) fn find_trust<'a>(trusts: &'a [Trust], partner: &str) -> Option<&'a Trust>
    ensures { option_copied result ≡ find (λ trust. same_text trust.partner partner.now) trusts.now }
{
    for trust in trusts {
        if trust.partner.as_str() == partner {
            return Some(trust);
        }
    }
    None
}
