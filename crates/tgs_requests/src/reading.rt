//! Reading the header of a TGS-REQ (RFC 4120, section 3.3.2).
ghost use Rattle.std.specs.Prelude.{◌≡◌, ◌<◌, ◌^◌, IfErr, IfOk, IfSome, None, Some, length};
ghost use Rattle.std.specs.List.{AllByRecursion};
ghost use Rattle.kdc_prelude.specs.Answers.{Answers};
ghost use Rattle.kdc_prelude.specs.Verdicts.{first_failing};
ghost use Rattle.as_core.specs.Stamps.{items_of};
ghost use Rattle.ticket_codec.specs.Denied.{denied};
ghost use Rattle.tgs_requests.specs.Headers.{ap_req_in, ap_req_of, header_in, IsHeader, reading_rules};
ghost use Rattle.tgs_requests.specs.HeaderSteps.{header_read, IsDenial};

use crate::authentication::authenticate;
use crate::header::Header;
use crate::padata::{items_of, only_of, read_whole};
use dir_core::Directory;
use kdc_records::Rule;
use krb_messages::{ApReq, KdcReq, PaData};
use std::alloc::{AllocError, Global};
use ticket_codec::{Role, ShowFault, certify, unseal};

/// PA-TGS-REQ, a padata-type (RFC 4120, section 7.5.2).
const PA_TGS_REQ: u16 = 1;

/// The AP-REQ that padata say, if they do.
fn ap_req_in(alloc: Global, item: &PaData) -> Result<Option<ApReq>, AllocError>
    requires { length item.now.padata_value < 2 ^ 32 }
    ensures value { IfOk result (λ found. found ≡ ap_req_in item.now) }
    // What is sealed in it is shorter.
    ensures ticket { IfOk result (λ found. IfSome found (λ ap. length ap.ticket.sealed.cipher < 2 ^ 32)) }
    ensures auth { IfOk result (λ found. IfSome found (λ ap. length ap.authenticator.cipher < 2 ^ 32)) }
{
    read_whole::<ApReq>(alloc, item.padata_value.as_slice())
}

/// The only PA-TGS-REQ of a request, if it reads.
#[tactic(auto, unfolding(crate::specs::Headers::ap_req_of))]
fn ap_req_of(alloc: Global, message: &KdcReq) -> Result<Option<ApReq>, AllocError>
    requires short { AllByRecursion (λ item. length item.padata_value < 2 ^ 32) (items_of message.now.padata) }
    ensures value { IfOk result (λ found. found ≡ ap_req_of message.now) }
    ensures ticket { IfOk result (λ found. IfSome found (λ ap. length ap.ticket.sealed.cipher < 2 ^ 32)) }
    ensures auth { IfOk result (λ found. IfSome found (λ ap. length ap.authenticator.cipher < 2 ^ 32)) }
{
    match only_of(PA_TGS_REQ, items_of(message.padata.as_ref())) {
        Some(item) => ap_req_in(alloc, item),
        None => Ok(None),
    }
}

/// The header, step by step.
#[tactic(auto, unfolding(crate::specs::HeaderSteps::header_read))]
fn read_steps(
    alloc: Global,
    dir: &Directory,
    realm: u32,
    message: &KdcReq,
) -> Result<Header, ShowFault>
    requires realm { realm < length dir.now.realms }
    requires short { AllByRecursion (λ item. length item.padata_value < 2 ^ 32) (items_of message.now.padata) }
    ensures exact { Answers ShowFault.NoMemory result (denied (header_read dir.now realm message.now)) }
    ensures known { IfOk result (λ header. IsHeader header) }
{
    let Some(ap) = ap_req_of(alloc, message)? else {
        return Err(ShowFault::Deny(Rule::G1));
    };
    let opened = unseal(alloc, dir, realm, Role::Header, &ap.ticket)?;
    let auth = authenticate(
        alloc,
        message.body_bytes.as_slice(),
        &opened.part,
        &ap.authenticator,
    )?;
    let certified = certify(alloc, dir, realm, &opened)?;
    Ok(Header {
        opened,
        auth,
        certified,
    })
}

/// The header of a TGS-REQ to the realm at an index: its ticket-granting ticket, its authenticator, and the ticket's
/// record, where its PAC reads and its signatures are right.
///
/// # Errors
/// `Deny` with the first of the rules `G1` to `G8` that fails; `NoMemory`.
pub fn read_header(
    alloc: Global,
    dir: &Directory,
    realm: u32,
    message: &KdcReq,
) -> Result<Header, ShowFault>
    requires realm { realm < length dir.now.realms }
    requires short { AllByRecursion (λ item. length item.padata_value < 2 ^ 32) (items_of message.now.padata) }
    ensures ok { IfOk result (λ header. first_failing (reading_rules dir.now realm message.now) ≡ None) }
    ensures found { IfOk result (λ header. header_in dir.now realm message.now ≡ Some header) }
    ensures err { IfErr result (IsDenial (first_failing (reading_rules dir.now realm message.now))) }
    ensures known { IfOk result IsHeader }
{
    read_steps(alloc, dir, realm, message)
}
