//! The rules of an AP-REQ by itself (RFC 4120, section 3.2.3; MS-PAC, section 2.8).

ghost use Rattle.std.specs.Prelude.{◌≡◌, ◌+◌, ◌<◌, ◌≤◌, ◌^◌, IfOk, length};
ghost use Rattle.kdc_prelude.specs.Answers.{Answers};
ghost use Rattle.krb_messages.specs.Authenticator.{authenticator};
ghost use Rattle.krb_names.specs.Moments.{in_micros};
ghost use Rattle.tgs_requests.specs.Headers.{made_at};
ghost use Rattle.service_end.specs.Accepting.{judged, judged_of};

use crate::opening::{open_request, read_request};
use crate::pac::read_shown_pac;
use crate::refusal::AcceptRule;
use crate::service::ServiceKeys;
use crate::shown::{Judged, Shown};
use crate::times::{check_times, made_at};
use krb_names::Moment;
use std::alloc::Global;

/// What was shown, with what its PAC says.
fn judged_of(alloc: Global, keys: &ServiceKeys, shown: Shown) -> Result<Judged, AcceptRule>
    ensures exact { Answers AcceptRule.NoMemory result (judged_of keys.now shown) }
    ensures few { IfOk result (λ judged. length judged.pac.logon.subject.domain_sid.numbers ≤ 14) }
    ensures same { IfOk result (λ judged. judged.shown ≡ shown) }
{
    match read_shown_pac(alloc, &keys.key, &shown.part)? {
        Some(pac) => Ok(Judged { shown, pac }),
        None => Err(AcceptRule::Signature),
    }
}

/// What a message shows at a moment, or the first rule of a message by itself that fails.
#[tactic(auto, unfolding(crate::specs::Accepting::judged))]
pub(crate) fn judge(
    alloc: Global,
    keys: &ServiceKeys,
    moment: Moment,
    bytes: &[u8],
) -> Result<Judged, AcceptRule>
    requires { length bytes.now < 2 ^ 32 }
    ensures exact { Answers AcceptRule.NoMemory result (judged keys.now (in_micros moment) bytes.now) }
    ensures few { IfOk result (λ judged. length judged.pac.logon.subject.domain_sid.numbers ≤ 14) }
    ensures fits { IfOk result (λ judged. authenticator.Fits judged.shown.auth) }
    ensures within { IfOk result (λ judged. in_micros moment ≤ made_at judged.shown.auth + 300000000) }
{
    let request = read_request(alloc, bytes)?;
    let shown = open_request(alloc, keys, &request)?;
    check_times(moment, made_at(&shown.auth), &shown.part)?;
    judged_of(alloc, keys, shown)
}
