//! The name of a ticket.
ghost use Rattle.std.specs.Prelude.{◌≡◌, IfOk, is_some};
ghost use Rattle.s4u_rules.specs.SelfRules.{enterprise_user};
ghost use Rattle.tgs_core.specs.Grants.{account_name, hop_name, ticket_name};

use crate::account::principal_of_account;
use dir_core::{Account, RealmRec, Trust};
use kdc_records::Aim;
use krb_names::{Items, Principal, Text, TryClone};
use s4u_rules::enterprise_user;
use std::alloc::{AllocError, Global};

/// Whether it is an enterprise name of one part `a@C`.
fn is_enterprise_name(name: &Principal) -> bool
    ensures { result ≡ is_some (enterprise_user name.now) }
{
    enterprise_user(name).is_some()
}

/// The name of an account in its ticket: its own where it is asked for by such a name, else as it is asked for.
fn account_name(
    alloc: Global,
    realm: &RealmRec,
    asked: &Principal,
    account: &Account,
) -> Result<Principal, AllocError>
    ensures { IfOk result (λ name. name ≡ account_name realm.now asked.now account.now) }
{
    if is_enterprise_name(asked) {
        principal_of_account(alloc, realm, account)
    } else {
        asked.try_clone(alloc)
    }
}

/// The name of the ticket-granting service of a partner, of kind 2 (NT-SRV-INST), as this realm issues it.
fn hop_name(alloc: Global, realm: &RealmRec, trust: &Trust) -> Result<Principal, AllocError>
    ensures { IfOk result (λ name. name ≡ hop_name realm.now trust.now) }
{
    let mut parts = Items::new(alloc);
    parts.push(Text::copy(alloc, "krbtgt")?)?;
    parts.push(Text::copy(alloc, trust.partner.as_str())?)?;
    Ok(Principal {
        kind: 2,
        parts,
        realm: realm.name.try_clone(alloc)?,
    })
}

/// The name of the ticket of what is aimed at; of a referral, that of the partner's ticket-granting service.
pub(crate) fn ticket_name(
    alloc: Global,
    realm: &RealmRec,
    asked: &Principal,
    aim: Aim,
) -> Result<Principal, AllocError>
    ensures { IfOk result (λ name. name ≡ ticket_name realm.now asked.now aim) }
{
    match aim {
        Aim::Krbtgt => asked.try_clone(alloc),
        Aim::Hop(at) => match realm.trusts.get(at as usize) {
            Some(trust) => hop_name(alloc, realm, trust),
            None => asked.try_clone(alloc),
        },
        Aim::Account(at) => match realm.accounts.get(at as usize) {
            Some(account) => account_name(alloc, realm, asked, account),
            None => asked.try_clone(alloc),
        },
    }
}
