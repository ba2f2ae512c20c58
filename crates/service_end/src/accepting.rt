//! Accepting an AP-REQ (RFC 4120, section 3.2.3; MS-PAC, section 2.8).

ghost use Rattle.std.specs.Prelude.{◌≡◌, ◌≢◌, ◌<◌, ◌≤◌, ◌^◌, IfErr, IfOk, OnErr, Ok, Err, length};
ghost use Rattle.kdc_prelude.specs.Answers.{Answers};
ghost use Rattle.krb_messages.specs.Authenticator.{authenticator};
ghost use Rattle.krb_names.specs.Moments.{in_micros};
ghost use Rattle.service_end.specs.Accepting.{accept_outcome, accepted_of, entry_of, services_in, told};

use crate::judging::judge;
use crate::refusal::AcceptRule;
use crate::replying::reply_to;
use crate::seen::{Seen, SeenEntry};
use crate::service::{Accepted, ServiceKeys};
use crate::shown::{Judged, Shown};
use crate::times::made_at;
use krb_names::{Items, Moment, Texts, TryClone};
use pac_buffers::DelegationInfo;
use std::alloc::{AllocError, Global};

/// What is kept of what was shown.
fn entry_of(alloc: Global, shown: &Shown) -> Result<SeenEntry, AllocError>
    requires { authenticator.Fits shown.now.auth }
    ensures { IfOk result (λ entry. entry ≡ entry_of shown.now) }
{
    Ok(SeenEntry {
        client: shown.part.client.try_clone(alloc)?,
        at: made_at(&shown.auth),
    })
}

/// The services that delegated.
fn services_in(alloc: Global, delegation: Option<DelegationInfo>) -> Texts
    ensures { result ≡ services_in delegation }
{
    match delegation {
        Some(info) => {
            let DelegationInfo {
                target: _,
                services,
            } = info;
            services
        }
        None => Items::new(alloc),
    }
}

/// What a service learns.
fn accepted_of(alloc: Global, conf: &[u8; 16], judged: Judged) -> Result<Accepted, AllocError>
    requires few { length judged.pac.logon.subject.domain_sid.numbers ≤ 14 }
    requires fits { authenticator.Fits judged.shown.auth }
    ensures { IfOk result (λ accepted. accepted ≡ accepted_of conf.now judged) }
{
    let reply = reply_to(alloc, conf, &judged.shown)?;
    let sid = judged.pac.logon.subject_sid();
    let Judged { shown, pac } = judged;
    Ok(Accepted {
        client: shown.part.client,
        sid,
        services: services_in(alloc, pac.delegation),
        reply,
    })
}

/// Accepts an AP-REQ for a service, or tells the first rule that fails. The moment is `now`, or the latest that a call used which
/// accepted, where that is later. `conf` is the confounder of the reply, and must not be used twice. What is accepted is kept in `seen`,
/// and what is older than 300 seconds dropped there; a refusal and want of memory leave `seen` as it was.
///
/// # Errors
/// The first rule that fails, in the order of [`AcceptRule`]; `NoMemory`.
#[tactic(auto, unfolding(crate::specs::Accepting::accept_outcome))]
pub fn accept(
    alloc: Global,
    keys: &ServiceKeys,
    now: Moment,
    conf: &[u8; 16],
    seen: &mut Seen,
    bytes: &[u8],
) -> Result<Accepted, AcceptRule>
    requires { length bytes.now < 2 ^ 32 }
    // What is accepted, and what is remembered then.
    ensures ok { IfOk result (λ accepted. told (accept_outcome keys.now (in_micros now) conf.now seen.old bytes.now) ≡ Ok (accepted, seen.new)) }
    // The first rule that fails.
    ensures err { IfErr result (λ rule. rule ≢ AcceptRule.NoMemory → accept_outcome keys.now (in_micros now) conf.now seen.old bytes.now ≡ Err rule) }
    ensures unchanged { OnErr result (seen.new ≡ seen.old) }
{
    let moment = seen.moment_used(now);
    let judged = judge(alloc, keys, moment, bytes)?;
    let entry = entry_of(alloc, &judged.shown)?;
    seen.check_new(alloc, moment, &entry)?;
    let accepted = accepted_of(alloc, conf, judged)?;
    seen.remember(moment, entry)?;
    Ok(accepted)
}
