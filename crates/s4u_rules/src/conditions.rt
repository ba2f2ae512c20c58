//! The conditions of the rules, each a function.
ghost use Rattle.std.specs.Prelude.{◌≡◌, true, false, OnOk, IfErr};
ghost use Rattle.std.specs.Option.{option_copied};
ghost use Rattle.s4u_rules.specs.Conditions.{evidence_is_forwardable, lists_target, service_has_spn, service_is_enabled, service_is_known, target_is_enabled, target_is_known, target_is_listed, user_is_enabled, user_is_known, user_is_of_realm};

use dir_core::{Account, Rule, has_text};
use krb_names::{Principal, Text};

/// The rule denies, where its condition does not hold.
pub(crate) fn require(rule: Rule, holds: bool) -> Result<(), Rule>
    ensures ok { OnOk result (holds ≡ true) }
    ensures err { IfErr result (λ denied. (denied ≡ rule) × (holds ≡ false)) }
{
    if holds { Ok(()) } else { Err(rule) }
}

/// G13: the service is an account.
pub(crate) fn service_is_known(service: Option<&Account>) -> bool
    ensures { result ≡ service_is_known (option_copied service.entry) }
{
    service.is_some()
}

/// G14: the service's account is not disabled.
pub(crate) fn service_is_enabled(service: Option<&Account>) -> bool
    ensures { result ≡ service_is_enabled (option_copied service.entry) }
{
    match service {
        Some(account) => !account.disabled,
        None => false,
    }
}

/// G19: the target is held by an account of the service's realm.
pub(crate) fn target_is_known(target: Option<&Account>) -> bool
    ensures { result ≡ target_is_known (option_copied target.entry) }
{
    target.is_some()
}

/// G20: the target's account is not disabled.
pub(crate) fn target_is_enabled(target: Option<&Account>) -> bool
    ensures { result ≡ target_is_enabled (option_copied target.entry) }
{
    match target {
        Some(account) => !account.disabled,
        None => false,
    }
}

/// S4: the service, which asks for a ticket to itself, has a service principal name.
pub(crate) fn service_has_spn(service: Option<&Account>) -> bool
    ensures { result ≡ service_has_spn (option_copied service.entry) }
{
    match service {
        Some(account) => !account.spns.is_empty(),
        None => false,
    }
}

/// S5: the user is of the service's realm.
pub(crate) fn user_is_of_realm(user: &Principal, service: &Principal) -> bool
    ensures { result ≡ user_is_of_realm user.now service.now }
{
    user.realm.as_str() == service.realm.as_str()
}

/// S6: the user is an account of its realm.
pub(crate) fn user_is_known(user: Option<&Account>) -> bool
    ensures { result ≡ user_is_known (option_copied user.entry) }
{
    user.is_some()
}

/// S7: the user's account is not disabled.
pub(crate) fn user_is_enabled(user: Option<&Account>) -> bool
    ensures { result ≡ user_is_enabled (option_copied user.entry) }
{
    match user {
        Some(account) => !account.disabled,
        None => false,
    }
}

/// P9: the user may be delegated, so that the evidence, a ticket in its name, is forwardable.
pub(crate) fn evidence_is_forwardable(user: Option<&Account>) -> bool
    ensures { result ≡ evidence_is_forwardable (option_copied user.entry) }
{
    match user {
        Some(account) => !account.not_delegated,
        None => false,
    }
}

/// P11: the target has a service principal name of the service's list.
pub(crate) fn target_is_listed(service: Option<&Account>, target: Option<&Account>) -> bool
    ensures { result ≡ target_is_listed (option_copied service.entry) (option_copied target.entry) }
{
    match (service, target) {
        (Some(service), Some(target)) => lists_target(service.classic.as_slice(), target),
        _ => false,
    }
}

/// Whether the target has a service principal name of the list.
fn lists_target(classic: &[Text], target: &Account) -> bool
    ensures { result ≡ lists_target classic.now target.now }
{
    classic
        .iter()
        .any(|spn| has_text(target.spns.as_slice(), spn.as_str()))
}
