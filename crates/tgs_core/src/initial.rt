//! The reply to an AS-REQ (RFC 4120, section 3.1.3).
ghost use Rattle.std.specs.Prelude.{◌≡◌, ◌<◌, ◌^◌, IfOk, Some, length};
ghost use Rattle.kdc_records.specs.declared.wish.Branch.TheVariants.{Initial};
ghost use Rattle.dir_core.specs.Lookups.{realm_named};
ghost use Rattle.as_core.specs.AsRequests.{as_ask};
ghost use Rattle.as_core.specs.AsRules.{as_terms};
ghost use Rattle.tgs_requests.specs.Askings.{branch_of};
ghost use Rattle.tgs_core.specs.Grants.{grant_of};
ghost use Rattle.tgs_core.specs.Received.{IsReceived};
ghost use Rattle.tgs_core.specs.Replies.{reply_bytes};
ghost use Rattle.tgs_core.specs.Requests.{request_to};

use crate::grant::find_grant;
use crate::grounds::GroundsView;
use crate::reply::reply;
use as_core::client_account;
use dir_core::Directory;
use kdc_records::Terms;
use krb_messages::KdcReq;
use krb_names::{Bytes, Items, Moment};
use std::alloc::{AllocError, Global};

/// The reply to an AS-REQ to the realm at an index, with these terms: none where the client is no account of the realm,
/// or the server is not named.
pub(crate) fn reply_as(
    alloc: Global,
    dir: &Directory,
    now: Moment,
    random: &[u8; 64],
    realm: u32,
    message: &KdcReq,
    terms: Terms,
) -> Result<Bytes, AllocError>
    requires realm { realm < length dir.now.realms }
    requires known { realm_named dir.now message.now.req_body.realm ≡ Some realm }
    requires asked { branch_of message.now ≡ Initial }
    requires received { IsReceived message.now }
    requires terms { terms ≡ as_terms (as_ask dir.now realm now message.now) }
    ensures value { IfOk result (λ bytes. bytes ≡ reply_bytes (grant_of dir.now now (request_to message.now realm)) random.now) }
    ensures short { IfOk result (λ bytes. length bytes < 2 ^ 31) }
{
    let Some(account) = client_account(dir, realm, message.req_body.cname.as_ref()) else {
        return Ok(Items::new(alloc));
    };
    dir.keeps_directory();
    let grant = find_grant(
        alloc,
        dir,
        realm,
        message,
        GroundsView::ByAccount(account),
        terms,
    )?;
    reply(alloc, grant.as_ref(), random)
}
