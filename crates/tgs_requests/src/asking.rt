//! How a request asks for a ticket (RFC 4120, section 5.4.1; MS-SFU, section 3.2.5).
ghost use Rattle.std.specs.Prelude.{◌≡◌};
ghost use Rattle.tgs_requests.specs.Askings.{asks_proxy, asks_self, branch_of, is_for_user, tgs_branch};

use crate::padata::{is_of_type, items_of};
use kdc_records::{Branch, has_bit, kdc_option};
use krb_messages::{KdcReq, PaData};
use s4u_padata::{ForUser, X509User};

/// msg-type of an AS-REQ (RFC 4120, section 7.5.7).
const KRB_AS_REQ: i32 = 10;

/// PA-FOR-USER, a padata-type (MS-SFU, section 2.2.1).
pub(crate) const PA_FOR_USER: u16 = 129;

/// PA-S4U-X509-USER, a padata-type (MS-SFU, section 2.2.2).
pub(crate) const PA_S4U_X509_USER: u16 = 130;

/// The padata of S4U2self, at most one of each type.
#[derive(Debug, Drop)]
pub struct SelfAsked {
    /// PA-FOR-USER
    pub for_user: Option<ForUser>,
    /// PA-S4U-X509-USER
    pub x509_user: Option<X509User>,
}

/// Whether padata are of S4U2self: PA-FOR-USER or PA-S4U-X509-USER.
pub fn is_for_user(item: &PaData) -> bool
    ensures { result ≡ is_for_user item.now }
{
    is_of_type(PA_FOR_USER, item) || is_of_type(PA_S4U_X509_USER, item)
}

/// Whether S4U2self is asked for.
pub fn asks_self(message: &KdcReq) -> bool
    ensures { result ≡ asks_self message.now }
{
    items_of(message.padata.as_ref())
        .iter()
        .any(|item| is_for_user(item))
}

/// Whether S4U2proxy is asked for.
pub fn asks_proxy(message: &KdcReq) -> bool
    ensures { result ≡ asks_proxy message.now }
{
    has_bit(message.req_body.kdc_options, kdc_option::CNAME_IN_ADDL_TKT)
}

/// How a TGS-REQ asks: padata of S4U2self decide before the option of S4U2proxy does.
pub fn tgs_branch(message: &KdcReq) -> Branch
    ensures { result ≡ tgs_branch message.now }
{
    if asks_self(message) {
        Branch::SelfTicket
    } else if asks_proxy(message) {
        Branch::Proxy
    } else {
        Branch::Ordinary
    }
}

/// How a request asks for a ticket.
pub fn branch_of(message: &KdcReq) -> Branch
    ensures { result ≡ branch_of message.now }
{
    if message.msg_type == KRB_AS_REQ {
        Branch::Initial
    } else {
        tgs_branch(message)
    }
}
