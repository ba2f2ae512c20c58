//! What a TGS-REQ asks for (RFC 4120, section 5.4.1; MS-SFU, section 2.2).
ghost use Rattle.std.specs.Prelude.{◌≡◌, ◌<◌, ◌^◌, IfOk, length, true};
ghost use Rattle.std.specs.List.{AllByRecursion};
ghost use Rattle.std.specs.Option.{option_copied};
ghost use Rattle.as_core.specs.AsRequests.{extra_tickets};
ghost use Rattle.as_core.specs.Stamps.{items_of};
ghost use Rattle.tgs_requests.specs.Askings.{asks_resource_based, asks_self, pac_options_in, pac_options_of, self_asked, self_user, tgs_wish};

use crate::asking::{SelfAsked, asks_proxy, asks_self, tgs_branch};
use crate::padata::{is_of_type, items_of, read_whole};
use crate::user::user_wished;
use as_core::as_wish;
use kdc_records::{Wish, has_bit};
use krb_messages::{KdcReq, PaData};
use krb_names::Principal;
use s4u_padata::PacOptions;
use std::alloc::{AllocError, Global};

/// PA-PAC-OPTIONS, a padata-type (MS-KILE, section 2.2.10).
const PA_PAC_OPTIONS: u16 = 167;

/// Resource-based constrained delegation, a bit of PA-PAC-OPTIONS (MS-SFU, section 2.2.5).
const RESOURCE_BASED: u32 = 3;

/// PA-PAC-OPTIONS: the first that reads.
fn pac_options_in(alloc: Global, items: &[PaData]) -> Result<Option<PacOptions>, AllocError>
    requires { AllByRecursion (λ item. length item.padata_value < 2 ^ 32) items.now }
    ensures { IfOk result (λ found. found ≡ pac_options_in items.now) }
{
    for item in items {
        if let Some(options) = pac_options_of(alloc, item)? {
            return Ok(Some(options));
        }
    }
    Ok(None)
}

/// The PA-PAC-OPTIONS that padata are, if they are of the type and read.
fn pac_options_of(alloc: Global, item: &PaData) -> Result<Option<PacOptions>, AllocError>
    requires { length item.now.padata_value < 2 ^ 32 }
    ensures { IfOk result (λ found. found ≡ pac_options_of item.now) }
{
    if is_of_type(PA_PAC_OPTIONS, item) {
        read_whole(alloc, item.padata_value.as_slice())
    } else {
        Ok(None)
    }
}

/// Whether resource-based constrained delegation is asked for.
fn asks_resource_based(alloc: Global, message: &KdcReq) -> Result<bool, AllocError>
    requires { AllByRecursion (λ item. length item.padata_value < 2 ^ 32) (items_of message.now.padata) }
    ensures { IfOk result (λ asks. asks ≡ asks_resource_based message.now) }
{
    match pac_options_in(alloc, items_of(message.padata.as_ref()))? {
        Some(options) => Ok(has_bit(options.flags, RESOURCE_BASED)),
        None => Ok(false),
    }
}

/// The user that S4U2self is asked for.
fn self_user(
    alloc: Global,
    message: &KdcReq,
    asked: Option<&SelfAsked>,
) -> Result<Option<Principal>, AllocError>
    requires { asks_self message.now ≡ true → option_copied asked ≡ self_asked message.now }
    ensures { IfOk result (λ user. user ≡ self_user message.now) }
{
    if !asks_self(message) {
        return Ok(None);
    }
    match asked {
        Some(asked) => user_wished(alloc, &message.req_body, asked),
        None => Ok(None),
    }
}

/// What a TGS-REQ asks for. `asked` is what `read_asked` gives of the request; it counts where S4U2self is asked for alone.
#[tactic(auto, unfolding(crate::specs::Askings::tgs_wish))]
pub fn tgs_wish(
    alloc: Global,
    message: &KdcReq,
    asked: Option<&SelfAsked>,
) -> Result<Wish, AllocError>
    requires short { AllByRecursion (λ item. length item.padata_value < 2 ^ 32) (items_of message.now.padata) }
    requires few { extra_tickets message.now.req_body.additional_tickets < 2 ^ 32 }
    requires asked { asks_self message.now ≡ true → option_copied asked ≡ self_asked message.now }
    ensures value { IfOk result (λ wish. wish ≡ tgs_wish message.now) }
{
    let user = self_user(alloc, message, asked)?;
    let rbcd = asks_resource_based(alloc, message)?;
    let body = as_wish(alloc, &message.req_body)?;
    Ok(Wish {
        branch: tgs_branch(message),
        user,
        rbcd,
        both: asks_self(message) && asks_proxy(message),
        ..body
    })
}
