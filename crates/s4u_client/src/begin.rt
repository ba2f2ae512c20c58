//! Requests to a KDC (RFC 4120, sections 3.1.1 and 3.3.1; MS-SFU, sections 3.1.5.1.1 and 3.1.5.2.1).
ghost use Rattle.std.specs.Prelude.{◌≡◌, ◌∷◌, ◌<◌, ◌≤◌, ◌+◌, ◌^◌, IfOk, IfSome, [], length, true};
ghost use Rattle.std.specs.Option.{option_copied};
ghost use Rattle.krb_names.specs.Keys.{is_padded};
ghost use Rattle.krb_messages.specs.KdcReq.{kdc_req};
ghost use Rattle.krb_messages.specs.KdcReqBody.{kdc_req_body};
ghost use Rattle.s4u_client.specs.Requests.{begun_as, begun_proxy, begun_self, begun_tgs, body_of, header_item, pending_for, proxy_items, request_of, self_items, stamp_item};
ghost use Rattle.s4u_client.specs.Writable.{AreShort, IsCred, IsName, IsShortItem, IsShortTicket, IsWant};

use crate::body::{body_bytes, body_of, request_bytes};
use crate::cred::{Begun, Cred, Pending, Want};
use crate::parts::{authenticator_bytes, body_sum, sealed_under, shown_bytes, stamp_bytes};
use crate::random::subkey_of;
use crate::user::{for_user_item, rbcd_item, x509_user_item};
use der_forms::write;
use krb_messages::{PaData, PaItems};
use krb_names::{Bytes, Items, Key, Moment, Principal, TryClone};
use krb_tickets::Ticket;
use std::alloc::{AllocError, Global};

/// Padata-types (RFC 4120, section 7.5.2).
const PA_TGS_REQ: i32 = 1;

const PA_ENC_TIMESTAMP: i32 = 2;

/// The key usages of a timestamp and of a TGS-REQ's authenticator, and those of the parts of replies (RFC 4120, section
/// 7.5.1).
const TIMESTAMP_USAGE: u32 = 1;

const AUTHENTICATOR_USAGE: u32 = 7;

const AS_REP_USAGE: u32 = 3;

const TGS_REP_SUBKEY_USAGE: u32 = 9;

/// PA-ENC-TIMESTAMP.
#[tactic(auto, using(crate::proofs::Forms::sealed_fits, crate::proofs::Forms::sealed_short))]
fn stamp_item(
    alloc: Global,
    key: &Key,
    now: Moment,
    random: &[u8; 64],
) -> Result<PaData, AllocError>
    ensures value { IfOk result (λ item. item ≡ stamp_item key.now now random.now) }
    ensures short { IfOk result IsShortItem }
{
    let text = stamp_bytes(alloc, now)?;
    let sealed = sealed_under(alloc, key, TIMESTAMP_USAGE, random, text.as_slice())?;
    Ok(PaData {
        padata_type: PA_ENC_TIMESTAMP,
        padata_value: write(alloc, &sealed)?,
    })
}

/// PA-TGS-REQ, for a body with these bytes.
#[tactic(auto, using(crate::proofs::Keys::whole_subkey))]
fn header_item(
    alloc: Global,
    tgt: &Cred,
    now: Moment,
    random: &[u8; 64],
    body: &[u8],
) -> Result<PaData, AllocError>
    requires { IsCred tgt.now }
    ensures value { IfOk result (λ item. item ≡ header_item tgt.now now random.now body.now) }
    ensures short { IfOk result IsShortItem }
{
    let sum = body_sum(alloc, &tgt.session, body)?;
    let auth = authenticator_bytes(alloc, &tgt.client, now, Some(sum), Some(subkey_of(random)))?;
    Ok(PaData {
        padata_type: PA_TGS_REQ,
        padata_value: shown_bytes(alloc, tgt, 0, AUTHENTICATOR_USAGE, random, auth.as_slice())?,
    })
}

/// The padata of an ordinary TGS-REQ.
#[tactic(auto, using(crate::proofs::RequestForms::one_short))]
fn tgs_items(
    alloc: Global,
    tgt: &Cred,
    now: Moment,
    random: &[u8; 64],
    body: &[u8],
) -> Result<PaItems, AllocError>
    requires { IsCred tgt.now }
    ensures value { IfOk result (λ items. items ≡ header_item tgt.now now random.now body.now ∷ []) }
    ensures short { IfOk result AreShort }
{
    let mut items = Items::new(alloc);
    items.push(header_item(alloc, tgt, now, random, body)?)?;
    Ok(items)
}

/// The padata of S4U2self.
#[tactic(auto, using(crate::proofs::RequestForms::three_short))]
fn self_items(
    alloc: Global,
    tgt: &Cred,
    user: &Principal,
    want: &Want,
    now: Moment,
    random: &[u8; 64],
    body: &[u8],
) -> Result<PaItems, AllocError>
    requires tgt { IsCred tgt.now }
    requires user { IsName user.now }
    requires want { IsWant want.now }
    ensures value { IfOk result (λ items. items ≡ header_item tgt.now now random.now body.now ∷ self_items tgt.now user.now want.now random.now) }
    ensures short { IfOk result AreShort }
{
    let mut items = Items::new(alloc);
    items.push(header_item(alloc, tgt, now, random, body)?)?;
    items.push(x509_user_item(alloc, want, user, &subkey_of(random))?)?;
    items.push(for_user_item(alloc, user, &tgt.session)?)?;
    Ok(items)
}

/// The padata of S4U2proxy.
#[tactic(auto, using(crate::proofs::RequestForms::one_short, crate::proofs::RequestForms::two_short))]
fn proxy_items(
    alloc: Global,
    tgt: &Cred,
    rbcd: bool,
    now: Moment,
    random: &[u8; 64],
    body: &[u8],
) -> Result<PaItems, AllocError>
    requires { IsCred tgt.now }
    ensures value { IfOk result (λ items. items ≡ header_item tgt.now now random.now body.now ∷ proxy_items rbcd) }
    ensures short { IfOk result AreShort }
{
    let mut items = Items::new(alloc);
    items.push(header_item(alloc, tgt, now, random, body)?)?;
    if rbcd {
        items.push(rbcd_item(alloc)?)?;
    }
    Ok(items)
}

/// The bytes of a request with these padata, whose body has these bytes.
#[tactic(auto, using(crate::proofs::RequestForms::body_fits))]
fn request_for(
    alloc: Global,
    is_as: bool,
    padata: PaItems,
    want: &Want,
    client: Option<&Principal>,
    evidence: Option<&Ticket>,
    bytes: Bytes,
) -> Result<Bytes, AllocError>
    requires padata { AreShort padata }
    requires want { IsWant want.now }
    requires client { IfSome (option_copied client) IsName }
    requires evidence { IfSome (option_copied evidence) IsShortTicket }
    requires own { bytes ≡ kdc_req_body.spelling (body_of want.now (option_copied client) (option_copied evidence)) }
    requires short { length bytes ≤ 2 ^ 27 + 8192 }
    ensures ok { IfOk result (λ made. made ≡ kdc_req.spelling (request_of is_as padata (body_of want.now (option_copied client.entry) (option_copied evidence.entry)))) }
    ensures short { IfOk result (λ made. length made < 2 ^ 30) }
{
    let body = body_of(alloc, want, client, evidence)?;
    request_bytes(is_as, padata, body, bytes)
}

/// What is kept of a TGS-REQ for this client.
fn pending_for(
    alloc: Global,
    tgt: &Cred,
    client: &Principal,
    want: &Want,
    random: &[u8; 64],
) -> Result<Pending, AllocError>
    ensures { IfOk result (λ pending. pending ≡ pending_for tgt.now client.now want.now random.now) }
{
    Ok(Pending {
        want: want.try_clone(alloc)?,
        client: client.try_clone(alloc)?,
        own: tgt.client.try_clone(alloc)?,
        key: subkey_of(random),
        usage: TGS_REP_SUBKEY_USAGE,
    })
}

/// An AS-REQ with an encrypted timestamp.
#[tactic(auto, unfolding(crate::specs::Requests::as_request), using(crate::proofs::RequestForms::one_short))]
pub fn begin_as(
    alloc: Global,
    client: &Principal,
    key: &Key,
    want: &Want,
    now: Moment,
    random: &[u8; 64],
) -> Result<Begun, AllocError>
    requires client { IsName client.now }
    requires want { IsWant want.now }
    ensures ok { IfOk result (λ begun. begun ≡ begun_as client.now key.now want.now now random.now) }
    ensures short { IfOk result (λ begun. length begun.bytes < 2 ^ 30) }
{
    let body = body_bytes(alloc, want, Some(client), None)?;
    let mut items = Items::new(alloc);
    items.push(stamp_item(alloc, key, now, random)?)?;
    Ok(Begun {
        bytes: request_for(alloc, true, items, want, Some(client), None, body)?,
        pending: Pending {
            want: want.try_clone(alloc)?,
            client: client.try_clone(alloc)?,
            own: client.try_clone(alloc)?,
            key: *key,
            usage: AS_REP_USAGE,
        },
    })
}

/// A TGS-REQ for a ticket of the client's own.
#[tactic(auto, unfolding(crate::specs::Requests::tgs_request))]
pub fn begin_tgs(
    alloc: Global,
    tgt: &Cred,
    want: &Want,
    now: Moment,
    random: &[u8; 64],
) -> Result<Begun, AllocError>
    requires tgt { IsCred tgt.now }
    requires want { IsWant want.now }
    ensures ok { IfOk result (λ begun. begun ≡ begun_tgs tgt.now want.now now random.now) }
    ensures short { IfOk result (λ begun. length begun.bytes < 2 ^ 30) }
{
    let body = body_bytes(alloc, want, None, None)?;
    let items = tgs_items(alloc, tgt, now, random, body.as_slice())?;
    Ok(Begun {
        bytes: request_for(alloc, false, items, want, None, None, body)?,
        pending: pending_for(alloc, tgt, &tgt.client, want, random)?,
    })
}

/// A TGS-REQ for a ticket to the client in a user's name (S4U2self).
#[tactic(auto, unfolding(crate::specs::Requests::self_request))]
pub fn begin_self(
    alloc: Global,
    tgt: &Cred,
    user: &Principal,
    want: &Want,
    now: Moment,
    random: &[u8; 64],
) -> Result<Begun, AllocError>
    requires tgt { IsCred tgt.now }
    requires user { IsName user.now }
    requires want { IsWant want.now }
    ensures ok { IfOk result (λ begun. begun ≡ begun_self tgt.now user.now want.now now random.now) }
    ensures short { IfOk result (λ begun. length begun.bytes < 2 ^ 30) }
{
    let body = body_bytes(alloc, want, None, None)?;
    let items = self_items(alloc, tgt, user, want, now, random, body.as_slice())?;
    Ok(Begun {
        bytes: request_for(alloc, false, items, want, None, None, body)?,
        pending: pending_for(alloc, tgt, user, want, random)?,
    })
}

/// A TGS-REQ for a ticket to a third service in the name of the user of an evidence ticket (S4U2proxy), with resource-based
/// constrained delegation where `rbcd` is set.
#[tactic(auto, unfolding(crate::specs::Requests::proxy_request))]
pub fn begin_proxy(
    alloc: Global,
    tgt: &Cred,
    evidence: &Cred,
    user: &Principal,
    rbcd: bool,
    want: &Want,
    now: Moment,
    random: &[u8; 64],
) -> Result<Begun, AllocError>
    requires tgt { IsCred tgt.now }
    requires evidence { IsCred evidence.now }
    requires want { IsWant want.now }
    ensures ok { IfOk result (λ begun. begun ≡ begun_proxy tgt.now evidence.now user.now rbcd want.now now random.now) }
    ensures short { IfOk result (λ begun. length begun.bytes < 2 ^ 30) }
{
    let body = body_bytes(alloc, want, None, Some(&evidence.ticket))?;
    let items = proxy_items(alloc, tgt, rbcd, now, random, body.as_slice())?;
    Ok(Begun {
        bytes: request_for(
            alloc,
            false,
            items,
            want,
            None,
            Some(&evidence.ticket),
            body,
        )?,
        pending: pending_for(alloc, tgt, user, want, random)?,
    })
}
