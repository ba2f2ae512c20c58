//! Changes to a directory.
ghost use Rattle.std.specs.Prelude.{◌≡◌, IfOk};
ghost use Rattle.std.specs.Option.{option_copied};
ghost use Rattle.dir_records.specs.Changes.{named_account, has_forms, has_value_forms, partner_of, passes, realm_of};
ghost use Rattle.dir_records.specs.Forms.{is_account_name};
ghost use Rattle.krb_names.specs.Pieces.{is_name};

use crate::forms::{is_account_name, is_key, is_positive, is_service_name};
use crate::limits::MAX_LIFE;
use crate::records::KeyRec;
use krb_names::{Sid, Spn, Text, is_name_text};
use std::alloc::{AllocError, Global};

/// A mark of an account, which is on or off.
#[derive(Clone, Copy, Debug, PartialEq, Eq)]
pub enum Mark {
    /// The account gets no ticket, and none is given for it.
    Disabled,
    /// The account is sensitive: no service may delegate in its name.
    NotDelegated,
    /// The account's service gets forwardable tickets by S4U2self.
    TrustedToAuth,
    /// The account has to pre-authenticate.
    Preauth,
}

/// A change to a directory. The first text is the realm's name, the second, where there is one, the account's or the
/// trust's partner.
#[derive(Debug, Drop)]
pub enum Change {
    /// A new account with this number and key: with no marks but that it has to pre-authenticate, with the default salt
    /// and empty lists.
    AddAccount(Text, Text, u32, KeyRec),
    /// The account goes. Its key and its number are spent: neither is given out again.
    RemoveAccount(Text, Text),
    /// A mark is set, or taken away.
    SetMark(Text, Text, Mark, bool),
    /// The account's key and its version. The key that it had is spent, unless it is the same.
    SetKey(Text, Text, KeyRec),
    /// One more service principal name of the account, the last of its list.
    AddSpn(Text, Text, Spn),
    /// A service principal name of the account goes.
    RemoveSpn(Text, Text, Spn),
    /// One more service to which the account may delegate.
    AddClassic(Text, Text, Spn),
    /// A service to which the account may delegate goes.
    RemoveClassic(Text, Text, Spn),
    /// One more SID of those who may delegate to the account.
    AddResource(Text, Text, Sid),
    /// A SID of those who may delegate to the account goes.
    RemoveResource(Text, Text, Sid),
    /// One more group that the account is a member of.
    AddGroup(Text, Text, u32),
    /// A group that the account is a member of goes.
    RemoveGroup(Text, Text, u32),
    /// How long a ticket of the realm may last, in seconds.
    SetLife(Text, u64),
    /// One more realm that the trust with a partner reaches: the third text is its name.
    AddReach(Text, Text, Text),
    /// A realm that the trust with a partner reaches goes.
    RemoveReach(Text, Text, Text),
}

impl Change {
    /// The name of the realm that is changed.
    pub fn realm(&self) -> &str
        ensures { result.now ≡ realm_of self.now }
    {
        match self {
            Change::AddAccount(realm, _, _, _)
            | Change::RemoveAccount(realm, _)
            | Change::SetMark(realm, _, _, _)
            | Change::SetKey(realm, _, _)
            | Change::AddSpn(realm, _, _)
            | Change::RemoveSpn(realm, _, _)
            | Change::AddClassic(realm, _, _)
            | Change::RemoveClassic(realm, _, _)
            | Change::AddResource(realm, _, _)
            | Change::RemoveResource(realm, _, _)
            | Change::AddGroup(realm, _, _)
            | Change::RemoveGroup(realm, _, _)
            | Change::SetLife(realm, _)
            | Change::AddReach(realm, _, _)
            | Change::RemoveReach(realm, _, _) => realm.as_str(),
        }
    }

    /// The name of the account that is changed: one that is there, so a new one is none.
    pub fn account(&self) -> Option<&str>
        ensures { option_copied result ≡ named_account self.now }
    {
        match self {
            Change::RemoveAccount(_, name)
            | Change::SetMark(_, name, _, _)
            | Change::SetKey(_, name, _)
            | Change::AddSpn(_, name, _)
            | Change::RemoveSpn(_, name, _)
            | Change::AddClassic(_, name, _)
            | Change::RemoveClassic(_, name, _)
            | Change::AddResource(_, name, _)
            | Change::RemoveResource(_, name, _)
            | Change::AddGroup(_, name, _)
            | Change::RemoveGroup(_, name, _) => Some(name.as_str()),
            _ => None,
        }
    }

    /// The partner of the trust that is changed.
    pub fn partner(&self) -> Option<&str>
        ensures { option_copied result ≡ partner_of self.now }
    {
        match self {
            Change::AddReach(_, partner, _) | Change::RemoveReach(_, partner, _) => {
                Some(partner.as_str())
            }
            _ => None,
        }
    }

    /// Whether its names are names, and its values have their forms and ranges.
    pub fn has_forms(&self, alloc: Global) -> Result<bool, AllocError>
        ensures { IfOk result (λ test. test ≡ has_forms self.now) }
    {
        if is_name_text(self.realm()) && has_account_form(self) && has_partner_form(self) {
            has_value_forms(alloc, self)
        } else {
            Ok(false)
        }
    }
}

fn has_account_form(change: &Change) -> bool
    ensures { result ≡ passes is_account_name (named_account change.now) }
{
    match change.account() {
        Some(name) => is_account_name(name),
        None => true,
    }
}

fn has_partner_form(change: &Change) -> bool
    ensures { result ≡ passes is_name (partner_of change.now) }
{
    match change.partner() {
        Some(partner) => is_name_text(partner),
        None => true,
    }
}

fn has_value_forms(alloc: Global, change: &Change) -> Result<bool, AllocError>
    ensures { IfOk result (λ test. test ≡ has_value_forms change.now) }
{
    match change {
        Change::AddAccount(_, name, number, key) => {
            Ok(is_account_name(name.as_str()) && is_positive(*number) && is_key(*key))
        }
        Change::SetKey(_, _, key) => Ok(is_key(*key)),
        Change::AddSpn(_, _, spn)
        | Change::RemoveSpn(_, _, spn)
        | Change::AddClassic(_, _, spn)
        | Change::RemoveClassic(_, _, spn) => is_service_name(alloc, spn.as_str()),
        Change::SetLife(_, life) => Ok(*life > 0 && *life <= MAX_LIFE),
        Change::AddReach(_, _, reach) | Change::RemoveReach(_, _, reach) => {
            Ok(is_name_text(reach.as_str()))
        }
        _ => Ok(true),
    }
}
