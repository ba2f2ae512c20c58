//! An AS-REQ as the rules see it (RFC 4120, section 5.4.1).
ghost use Rattle.std.specs.Prelude.{◌≡◌, ◌<◌, ◌^◌, IfOk, length};
ghost use Rattle.std.specs.List.{AllByRecursion};
ghost use Rattle.std.specs.Option.{option_copied};
ghost use Rattle.as_core.specs.AsRequests.{as_ask, as_wish, extra_tickets};
ghost use Rattle.as_core.specs.AsRules.{as_decision};
ghost use Rattle.as_core.specs.Stamps.{items_of};

use crate::decide::{client_account, decide_as};
use crate::timestamp::stamp_of;
use dir_core::Directory;
use kdc_records::{Branch, Decision, Wish};
use krb_messages::{KdcReq, KdcReqBody, Tickets};
use krb_names::{Moment, Principal, TryClone};
use std::alloc::{AllocError, Global};

fn copy_name(alloc: Global, name: Option<&Principal>) -> Result<Option<Principal>, AllocError>
    ensures { IfOk result (λ copied. copied ≡ option_copied name.entry) }
{
    match name {
        Some(name) => Ok(Some(name.try_clone(alloc)?)),
        None => Ok(None),
    }
}

/// How many additional tickets there are.
fn extra_tickets(tickets: Option<&Tickets>) -> u32
    requires { extra_tickets (option_copied tickets) < 2 ^ 32 }
    ensures { result ≡ extra_tickets (option_copied tickets.entry) }
{
    match tickets {
        Some(tickets) => tickets.len() as u32,
        None => 0,
    }
}

/// What an AS-REQ asks for. Padata of S4U say nothing in it.
pub fn as_wish(alloc: Global, body: &KdcReqBody) -> Result<Wish, AllocError>
    requires few { extra_tickets body.now.additional_tickets < 2 ^ 32 }
    ensures value { IfOk result (λ wish. wish ≡ as_wish body.now) }
{
    Ok(Wish {
        branch: Branch::Initial,
        realm: body.realm.try_clone(alloc)?,
        client: copy_name(alloc, body.cname.as_ref())?,
        server: copy_name(alloc, body.sname.as_ref())?,
        options: body.kdc_options,
        from: body.from,
        till: body.till,
        etypes: body.etype.try_clone(alloc)?,
        nonce: body.nonce,
        user: None,
        rbcd: false,
        extra: extra_tickets(body.additional_tickets.as_ref()),
        both: false,
    })
}

/// The verdict on an AS-REQ to the realm at an index: the first of the rules A1 to A10 that fails, or what the ticket
/// has.
#[tactic(auto, unfolding(crate::specs::AsRequests::as_ask))]
pub fn judge_as(
    alloc: Global,
    dir: &Directory,
    realm: u32,
    now: Moment,
    req: &KdcReq,
) -> Result<Decision, AllocError>
    requires realm { realm < length dir.now.realms }
    requires short { AllByRecursion (λ item. length item.padata_value < 2 ^ 32) (items_of req.now.padata) }
    requires few { extra_tickets req.now.req_body.additional_tickets < 2 ^ 32 }
    ensures first { IfOk result (λ decision. decision ≡ as_decision (as_ask dir.now realm now req.now)) }
{
    let account = client_account(dir, realm, req.req_body.cname.as_ref());
    let stamp = stamp_of(alloc, account, req.padata.as_ref())?;
    let wish = as_wish(alloc, &req.req_body)?;
    Ok(decide_as(dir, realm, now, &wish, &stamp))
}
