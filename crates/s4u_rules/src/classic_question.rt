//! Whether a service gets a ticket to a target for a user by its own list: S4U2proxy, MS-SFU, section 3.2.5.2.
ghost use Rattle.std.specs.Prelude.{◌≡◌};
ghost use Rattle.std.specs.Option.{option_copied};
ghost use Rattle.kdc_prelude.specs.Verdicts.{first_failing};
ghost use Rattle.s4u_rules.specs.AskClassic.{classic_answer, classic_question, classic_rules};
ghost use Rattle.s4u_rules.specs.Outcomes.{IsVerdict};

use crate::asked::Asked;
use crate::conditions::{
    evidence_is_forwardable, require, service_is_enabled, service_is_known, target_is_enabled,
    target_is_known, target_is_listed, user_is_known,
};
use dir_core::{Account, Directory, Rule};
use krb_names::{Principal, Spn};

/// Whether the service gets a ticket to the target for the user by the services that its own account lists: by the
/// directory alone, where the service has a forwardable ticket of the user to itself.
pub fn ask_classic(dir: &Directory, service: &Principal, user: &Principal, target: &Spn) -> Asked
    ensures first { result ≡ classic_answer (classic_question dir.now service.now user.now target.now) }
{
    let service_account = dir.account_of(service);
    let user_account = dir.account_of(user);
    let target_account = dir.account_serving(service.realm.as_str(), target.as_str());
    match check_classic(service_account, user_account, target_account) {
        Err(rule) => Asked::Deny(rule),
        Ok(()) => Asked::Allowed,
    }
}

/// The first rule of S4U2proxy that denies it.
fn check_classic(
    service_account: Option<&Account>,
    user_account: Option<&Account>,
    target_account: Option<&Account>,
) -> Result<(), Rule>
    ensures first { IsVerdict result (first_failing (classic_rules (record { service_account = option_copied service_account.entry; user_account = option_copied user_account.entry; target_account = option_copied target_account.entry }))) }
{
    require(Rule::G13, service_is_known(service_account))?;
    require(Rule::G14, service_is_enabled(service_account))?;
    require(Rule::G19, target_is_known(target_account))?;
    require(Rule::G20, target_is_enabled(target_account))?;
    require(Rule::S6, user_is_known(user_account))?;
    require(Rule::P9, evidence_is_forwardable(user_account))?;
    require(Rule::P11, target_is_listed(service_account, target_account))
}
