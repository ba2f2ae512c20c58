//! The evidence ticket of a request, and the role that its requestor gives it (MS-SFU, section 3.2.5.2).
ghost use Rattle.std.specs.Prelude.{◌≡◌, ◌<◌, length};
ghost use Rattle.std.specs.Option.{option_copied};
ghost use Rattle.proxy_rules.specs.ProxyRules.{requestor_is_local};
ghost use Rattle.proxy_requests.specs.Evidences.{requestor_role, ticket_asked};

use dir_core::Directory;
use kdc_records::TicketRec;
use krb_messages::KdcReq;
use krb_tickets::Ticket;
use route_rules::requestor_account;
use ticket_codec::Role;

/// The additional ticket of a request, if there is exactly one.
pub(crate) fn ticket_asked(message: &KdcReq) -> Option<&Ticket>
    ensures { option_copied result ≡ ticket_asked message.now }
{
    match &message.req_body.additional_tickets {
        Some(tickets) => match tickets.as_slice() {
            [ticket] => Some(ticket),
            _ => None,
        },
        None => None,
    }
}

/// Whether the requestor, the header's client, is of the realm at an index.
fn requestor_is_local(dir: &Directory, realm: u32, header: &TicketRec) -> bool
    requires { realm < length dir.now.realms }
    ensures { result ≡ requestor_is_local dir.now realm header.now }
{
    header.client.realm == dir.realm(realm).name
}

/// The role of the evidence ticket: of a requestor of the realm at an index its account's, if it has one; of a requestor of
/// another realm a cross-realm ticket's.
#[tactic(auto, unfolding(crate::specs::Evidences::requestor_role))]
pub(crate) fn requestor_role(dir: &Directory, realm: u32, header: &TicketRec) -> Option<Role>
    requires { realm < length dir.now.realms }
    ensures { result ≡ requestor_role dir.now realm header.now }
{
    if !requestor_is_local(dir, realm, header) {
        return Some(Role::CrossEvidence);
    }
    match requestor_account(dir, realm, &header.client) {
        Some(account) => Some(Role::Evidence(account)),
        None => None,
    }
}
