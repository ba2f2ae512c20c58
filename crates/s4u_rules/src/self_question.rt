//! Whether a service gets a ticket to itself for a user: S4U2self, MS-SFU, section 3.2.5.1.
ghost use Rattle.std.specs.Prelude.{◌≡◌, None};
ghost use Rattle.std.specs.Option.{option_copied};
ghost use Rattle.kdc_prelude.specs.Verdicts.{first_failing};
ghost use Rattle.s4u_rules.specs.AskSelf.{is_forwardable, self_answer, self_question, self_rules};
ghost use Rattle.s4u_rules.specs.Outcomes.{IsVerdict, outcome};

use crate::asked::Asked;
use crate::conditions::{
    require, service_has_spn, service_is_enabled, service_is_known, user_is_enabled, user_is_known,
    user_is_of_realm,
};
use dir_core::{Account, Directory, Rule};
use krb_names::Principal;

/// Whether the service gets a ticket to itself for the user, and whether that is forwardable: by the directory alone,
/// where the service has a ticket-granting ticket of its realm.
pub fn ask_self(dir: &Directory, service: &Principal, user: &Principal) -> Asked
    ensures first { result ≡ self_answer (self_question dir.now service.now user.now) }
{
    let service_account = dir.account_of(service);
    let user_account = dir.account_of(user);
    match check_self(service, user, service_account, user_account) {
        Err(rule) => Asked::Deny(rule),
        Ok(()) => granted(service_account, user_account),
    }
}

/// The first rule of S4U2self that denies it.
fn check_self(
    service: &Principal,
    user: &Principal,
    service_account: Option<&Account>,
    user_account: Option<&Account>,
) -> Result<(), Rule>
    ensures first { IsVerdict result (first_failing (self_rules (record { service = service.now; user = user.now; service_account = option_copied service_account.entry; user_account = option_copied user_account.entry }))) }
{
    require(Rule::G13, service_is_known(service_account))?;
    require(Rule::G14, service_is_enabled(service_account))?;
    require(Rule::S4, service_has_spn(service_account))?;
    require(Rule::S5, user_is_of_realm(user, service))?;
    require(Rule::S6, user_is_known(user_account))?;
    require(Rule::S7, user_is_enabled(user_account))
}

fn granted(service: Option<&Account>, user: Option<&Account>) -> Asked
    ensures { result ≡ outcome None (is_forwardable (option_copied service.entry) (option_copied user.entry)) }
{
    if is_forwardable(service, user) {
        Asked::Forwardable
    } else {
        Asked::Allowed
    }
}

/// Whether what the service gets for this user is forwardable.
fn is_forwardable(service: Option<&Account>, user: Option<&Account>) -> bool
    ensures { result ≡ is_forwardable (option_copied service.entry) (option_copied user.entry) }
{
    match (service, user) {
        (Some(service), Some(user)) => {
            service.trusted_to_auth && !service.not_delegated && !user.not_delegated
        }
        _ => false,
    }
}
