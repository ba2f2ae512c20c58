//! The user that S4U2self is asked for (MS-SFU, sections 2.2.1, 2.2.2 and 3.2.5.1.1).
ghost use Rattle.std.specs.Prelude.{◌≡◌, ◌<◌, ◌^◌, IfOk, IfSome, length};
ghost use Rattle.std.specs.List.{AllByRecursion, join_with_byte};
ghost use Rattle.std.specs.Option.{option_copied};
ghost use Rattle.as_core.specs.Stamps.{items_of};
ghost use Rattle.s4u_rules.specs.SelfRules.{user_asked};
ghost use Rattle.tgs_requests.specs.Askings.{agrees_with, IsSelfAsked, is_for_request, names_one_user, same_user, self_asked, user_by, user_wished};

use crate::asking::{PA_FOR_USER, PA_S4U_X509_USER, SelfAsked};
use crate::padata::{items_of, read_one};
use krb_messages::{KdcReq, KdcReqBody};
use krb_names::{Principal, Text, TryClone, push_joined};
use s4u_padata::{ForUser, X509User};
use s4u_rules::{enterprise_user, user_realm};
use std::alloc::{AllocError, Global};

/// The padata of S4U2self of a request; None where there are two of a type, or one does not read.
#[tactic(auto, unfolding(crate::specs::Askings::self_asked))]
pub fn read_asked(alloc: Global, message: &KdcReq) -> Result<Option<SelfAsked>, AllocError>
    requires short { AllByRecursion (λ item. length item.padata_value < 2 ^ 32) (items_of message.now.padata) }
    ensures value { IfOk result (λ asked. asked ≡ self_asked message.now) }
    ensures known { IfOk result (λ asked. IfSome asked (IsSelfAsked (items_of message.now.padata))) }
{
    let items = items_of(message.padata.as_ref());
    let Some(for_user) = read_one(alloc, PA_FOR_USER, items)? else {
        return Ok(None);
    };
    let Some(x509_user) = read_one(alloc, PA_S4U_X509_USER, items)? else {
        return Ok(None);
    };
    Ok(Some(SelfAsked {
        for_user,
        x509_user,
    }))
}

/// The parts, joined by `/`.
fn joined(alloc: Global, parts: &[Text]) -> Result<Text, AllocError>
    ensures { IfOk result (λ text. text ≡ join_with_byte 47 parts.now) }
{
    let mut text = String::new(alloc);
    push_joined(&mut text, '/', parts)?;
    Ok(Text::from_string(text))
}

/// The name of a user in its realm.
#[tactic(auto, unfolding(s4u_rules::specs::SelfRules::user_asked))]
fn user_name(alloc: Global, name: &Principal) -> Result<Text, AllocError>
    ensures { IfOk result (λ text. text ≡ (user_asked name.now).0) }
{
    match enterprise_user(name) {
        Some((user, _)) => Text::copy(alloc, user),
        None => joined(alloc, name.parts.as_slice()),
    }
}

/// Whether two names are of one user: the same realm, and the same name in it.
fn same_user(alloc: Global, user: &Principal, other: &Principal) -> Result<bool, AllocError>
    ensures { IfOk result (λ same. same ≡ same_user user.now other.now) }
{
    if user_realm(user) != user_realm(other) {
        return Ok(false);
    }
    Ok(user_name(alloc, user)? == user_name(alloc, other)?)
}

/// Whether the user of PA-FOR-USER, where there is one, is this one.
fn agrees_with(
    alloc: Global,
    by_name: Option<&ForUser>,
    user: &Principal,
) -> Result<bool, AllocError>
    ensures { IfOk result (λ agrees. agrees ≡ agrees_with (option_copied by_name.entry) user.now) }
{
    match by_name {
        Some(asked) => same_user(alloc, &asked.user, user),
        None => Ok(true),
    }
}

/// Whether PA-S4U-X509-USER has a name, the nonce of the body, and the user of PA-FOR-USER, where there is one.
fn is_for_request(
    alloc: Global,
    nonce: i64,
    by_name: Option<&ForUser>,
    by_id: Option<&X509User>,
) -> Result<bool, AllocError>
    ensures { IfOk result (λ fits. fits ≡ is_for_request nonce (option_copied by_name.entry) (option_copied by_id.entry)) }
{
    let Some(asked) = by_id else {
        return Ok(true);
    };
    if asked.nonce != nonce {
        return Ok(false);
    }
    match &asked.user {
        Some(user) => agrees_with(alloc, by_name, user),
        None => Ok(false),
    }
}

/// S1: PA-S4U-X509-USER has a name and the body's nonce, and it and PA-FOR-USER name one user. That there is one of each
/// type at most, and that they read, is known by then.
pub fn names_one_user(
    alloc: Global,
    body: &KdcReqBody,
    asked: &SelfAsked,
) -> Result<bool, AllocError>
    ensures { IfOk result (λ names. names ≡ names_one_user body.now asked.now) }
{
    is_for_request(
        alloc,
        body.nonce,
        asked.for_user.as_ref(),
        asked.x509_user.as_ref(),
    )
}

/// The user: by PA-S4U-X509-USER, else by PA-FOR-USER.
fn user_by(asked: &SelfAsked) -> Option<&Principal>
    ensures { option_copied result ≡ user_by asked.now.for_user asked.now.x509_user }
{
    match &asked.x509_user {
        Some(by_id) => by_id.user.as_ref(),
        None => match &asked.for_user {
            Some(by_name) => Some(&by_name.user),
            None => None,
        },
    }
}

/// The user that S4U2self is asked for, where S1 holds.
pub(crate) fn user_wished(
    alloc: Global,
    body: &KdcReqBody,
    asked: &SelfAsked,
) -> Result<Option<Principal>, AllocError>
    ensures { IfOk result (λ user. user ≡ user_wished body.now asked.now) }
{
    if !names_one_user(alloc, body, asked)? {
        return Ok(None);
    }
    match user_by(asked) {
        Some(user) => Ok(Some(user.try_clone(alloc)?)),
        None => Ok(None),
    }
}
