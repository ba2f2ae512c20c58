//! A TGS-REQ as it is read (RFC 4120, section 3.3.2; MS-SFU, section 2.2).
ghost use Rattle.std.specs.Prelude.{◌≡◌, ◌<◌, ◌^◌, IfErr, IfOk, length, true};
ghost use Rattle.std.specs.List.{AllByRecursion};
ghost use Rattle.kdc_prelude.specs.Verdicts.{first_failing};
ghost use Rattle.as_core.specs.Stamps.{items_of};
ghost use Rattle.tgs_requests.specs.Askings.{asks_self, branch_of, self_asked, tgs_branch};
ghost use Rattle.tgs_requests.specs.Headers.{reading_rules};
ghost use Rattle.tgs_requests.specs.HeaderSteps.{IsDenial};
ghost use Rattle.tgs_core.specs.Judged.{IsTgsRead};
ghost use Rattle.tgs_core.specs.Received.{IsReceived};

use dir_core::Directory;
use kdc_records::Wish;
use krb_messages::KdcReq;
use std::alloc::{AllocError, Global};
use tgs_requests::{Header, SelfAsked, asks_self, read_asked, read_header, tgs_wish};
use ticket_codec::ShowFault;

/// What is read of a TGS-REQ.
#[derive(Drop)]
pub(crate) struct TgsRead {
    /// The padata of S4U2self, where it is asked for.
    pub(crate) asked: Option<SelfAsked>,
    pub(crate) wish: Wish,
    pub(crate) header: Header,
}

/// The padata of S4U2self, where it is asked for.
fn asked_of(alloc: Global, message: &KdcReq) -> Result<Option<SelfAsked>, AllocError>
    requires { AllByRecursion (λ item. length item.padata_value < 2 ^ 32) (items_of message.now.padata) }
    ensures { IfOk result (λ asked. asks_self message.now ≡ true → asked ≡ self_asked message.now) }
{
    if asks_self(message) {
        read_asked(alloc, message)
    } else {
        Ok(None)
    }
}

/// What is read of a TGS-REQ to the realm at an index.
///
/// # Errors
/// `Deny` with the first of the rules G1 to G8 that fails; `NoMemory`.
pub(crate) fn read_tgs(
    alloc: Global,
    dir: &Directory,
    realm: u32,
    message: &KdcReq,
) -> Result<TgsRead, ShowFault>
    requires realm { realm < length dir.now.realms }
    requires kind { branch_of message.now ≡ tgs_branch message.now }
    requires received { IsReceived message.now }
    ensures ok { IfOk result (λ read. IsTgsRead dir.now realm message.now read) }
    ensures err { IfErr result (IsDenial (first_failing (reading_rules dir.now realm message.now))) }
{
    let asked = asked_of(alloc, message)?;
    let wish = tgs_wish(alloc, message, asked.as_ref())?;
    let header = read_header(alloc, dir, realm, message)?;
    Ok(TgsRead {
        asked,
        wish,
        header,
    })
}
