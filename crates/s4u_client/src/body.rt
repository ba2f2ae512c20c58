//! KDC-REQ-BODY of a request (RFC 4120, section 5.4.1).
ghost use Rattle.std.specs.Prelude.{◌≡◌, ◌∷◌, ◌<◌, ◌≤◌, ◌+◌, ◌^◌, IfOk, IfSome, [], length, option_map, pos, Some};
ghost use Rattle.std.specs.Option.{option_copied};
ghost use Rattle.krb_messages.specs.KdcReq.{kdc_req};
ghost use Rattle.krb_messages.specs.KdcReqBody.{kdc_req_body};
ghost use Rattle.krb_tickets.specs.Ticket.{ticket};
ghost use Rattle.krb_messages.specs.KdcReq.{msg_type_of};
ghost use Rattle.s4u_client.specs.Requests.{asked_in, body_of, options_of, request_of};
ghost use Rattle.s4u_client.specs.Writable.{AreShort, IsName, IsShortTicket, IsWant};

use crate::cred::Want;
use crate::names::{asked_in, tickets_of};
use der_forms::write;
use kdc_records::bit_if;
use krb_messages::{KdcReq, KdcReqBody, PaItems, write_request};
use krb_names::{Bytes, Items, Principal, Signed, TryClone};
use krb_tickets::Ticket;
use std::alloc::{AllocError, Global};

/// KDCOptions, bits (RFC 4120, section 5.4.1; MS-SFU, section 2.2.3).
const FORWARDABLE: u32 = 1;

const CNAME_IN_ADDL_TKT: u32 = 14;

/// The options of a request.
fn options_of(forwardable: bool, with_evidence: bool) -> u32
    ensures { result ≡ options_of forwardable with_evidence }
{
    bit_if(FORWARDABLE, forwardable) + bit_if(CNAME_IN_ADDL_TKT, with_evidence)
}

/// The types of keys that are asked for.
fn etypes(alloc: Global) -> Result<Signed, AllocError>
    ensures { IfOk result (λ etypes. etypes ≡ pos 18 ∷ pos 17 ∷ []) }
{
    let mut etypes = Items::new(alloc);
    etypes.push(18)?;
    etypes.push(17)?;
    Ok(etypes)
}

/// The client of a request, where it is told.
fn client_in(
    alloc: Global,
    want: &Want,
    client: Option<&Principal>,
) -> Result<Option<Principal>, AllocError>
    ensures { IfOk result (λ made. made ≡ option_map (asked_in want.now.realm) (option_copied client.entry)) }
{
    match client {
        Some(client) => Ok(Some(asked_in(alloc, &want.realm, client)?)),
        None => Ok(None),
    }
}

/// The body of a request.
pub(crate) fn body_of(
    alloc: Global,
    want: &Want,
    client: Option<&Principal>,
    evidence: Option<&Ticket>,
) -> Result<KdcReqBody, AllocError>
    ensures { IfOk result (λ body. body ≡ body_of want.now (option_copied client.entry) (option_copied evidence.entry)) }
{
    Ok(KdcReqBody {
        kdc_options: options_of(want.forwardable, evidence.is_some()),
        cname: client_in(alloc, want, client)?,
        realm: want.realm.try_clone(alloc)?,
        sname: Some(asked_in(alloc, &want.realm, &want.server)?),
        from: None,
        till: want.till,
        rtime: None,
        nonce: want.nonce,
        etype: etypes(alloc)?,
        additional_tickets: tickets_of(alloc, evidence)?,
    })
}

/// The bytes of a body.
#[tactic(auto, using(crate::proofs::RequestForms::body_fits, crate::proofs::RequestForms::body_short))]
pub(crate) fn body_bytes(
    alloc: Global,
    want: &Want,
    client: Option<&Principal>,
    evidence: Option<&Ticket>,
) -> Result<Bytes, AllocError>
    requires want { IsWant want.now }
    requires client { IfSome (option_copied client) IsName }
    requires evidence { IfSome (option_copied evidence) IsShortTicket }
    ensures ok { IfOk result (λ bytes. bytes ≡ kdc_req_body.spelling (body_of want.now (option_copied client.entry) (option_copied evidence.entry))) }
    ensures short { IfOk result (λ bytes. length bytes ≤ 2 ^ 27 + 8192) }
{
    let body = body_of(alloc, want, client, evidence)?;
    write(alloc, &body)
}

/// msg-type of an AS-REQ or of a TGS-REQ.
fn msg_type_of(is_as: bool) -> i32
    ensures { result ≡ msg_type_of is_as }
{
    if is_as { 10 } else { 12 }
}

/// A request with these padata and this body.
fn request_of(is_as: bool, padata: PaItems, body: KdcReqBody, body_bytes: Bytes) -> KdcReq
    requires { body_bytes ≡ kdc_req_body.spelling body }
    ensures { result ≡ request_of is_as padata body }
{
    KdcReq {
        pvno: 5,
        msg_type: msg_type_of(is_as),
        padata: Some(padata),
        req_body: body,
        body_bytes,
    }
}

/// Its bytes.
pub(crate) fn request_bytes(
    is_as: bool,
    padata: PaItems,
    body: KdcReqBody,
    body_bytes: Bytes,
) -> Result<Bytes, AllocError>
    requires padata { AreShort padata }
    requires body { kdc_req_body.Fits body }
    requires own { body_bytes ≡ kdc_req_body.spelling body }
    requires short { length body_bytes ≤ 2 ^ 27 + 8192 }
    ensures ok { IfOk result (λ bytes. bytes ≡ kdc_req.spelling (request_of is_as padata body)) }
    ensures short { IfOk result (λ bytes. length bytes < 2 ^ 30) }
{
    let message = request_of(is_as, padata, body, body_bytes);
    write_request(&message)
}
