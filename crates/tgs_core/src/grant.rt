//! What a granted request is given.
ghost use Rattle.std.specs.Prelude.{◌≡◌, ◌<◌, ◌≤◌, ◌^◌, IfOk, Some, length, slice_get};
ghost use Rattle.krb_names.specs.declared.principal.Principal.{Principal};
ghost use Rattle.dir_records.specs.declared.records.RealmRec.{RealmRec};
ghost use Rattle.der_core.specs.Laws.{IsBytes};
ghost use Rattle.krb_messages.specs.KdcReq.{kdc_req};
ghost use Rattle.dir_core.specs.Lookups.{realm_named};
ghost use Rattle.ticket_parts.specs.Sound.{IsSound};
ghost use Rattle.tgs_core.specs.GrantViews.{grounds_seen};
ghost use Rattle.tgs_core.specs.Grants.{IsGrant, IsGrantable, IsGrounds, grant_with, granted_record};
ghost use Rattle.tgs_core.specs.Requests.{request_to};

use crate::grounds::GroundsView;
use crate::random::{bytes_fit, session_key};
use crate::ticket_name::ticket_name;
use dir_core::{Directory, RealmRec};
use kdc_records::{Terms, TicketRec};
use krb_messages::KdcReq;
use krb_names::{Principal, TryClone};
use std::alloc::{AllocError, Global};
use std::marker::Model;
use ticket_codec::{Holding, aim_holding};

/// A granted request: the realm that is asked, the ticket's name, for whom the ticket is sealed, and on what the grant
/// stands.
#[derive(Drop)]
pub(crate) struct GrantView<'a> {
    pub(crate) realm: &'a RealmRec,
    /// The realm's index.
    at: u32,
    pub(crate) req: &'a KdcReq,
    /// The server that is asked for.
    pub(crate) asked: &'a Principal,
    pub(crate) server: Principal,
    pub(crate) terms: Terms,
    pub(crate) held: Holding,
    pub(crate) grounds: GroundsView<'a>,
}

impl<'a> Model for GrantView<'a> {
    ghost use Rattle.tgs_core.specs.GrantViews.{grant_seen};
    ghost use Rattle.tgs_core.specs.Grants.{Grant, IsGrant};

    ghost Value = { Grant };

    ghost view = { grant_seen };

    ghost invariant = { λ g. IsGrant (grant_seen g) };
}

/// The bounds of terms, by their types.
fn terms_fit(terms: Terms)
    ensures flags { terms.flags < 2 ^ 32 }
    ensures start { terms.start ≤ 253402300799 }
    ensures end { terms.end ≤ 253402300799 }
{
    let _start = terms.start.secs();
    let _end = terms.end.secs();
}

/// What is granted on these grounds to a request to the realm at an index. None where the server is not named, or the
/// ticket is sealed for nobody.
pub(crate) fn find_grant<'a>(
    alloc: Global,
    dir: &'a Directory,
    realm: u32,
    req: &'a KdcReq,
    grounds: GroundsView<'a>,
    terms: Terms,
) -> Result<Option<GrantView<'a>>, AllocError>
    requires realm { realm < length dir.now.realms }
    requires known { realm_named dir.now req.now.req_body.realm ≡ Some realm }
    requires read { kdc_req.Fits req.now }
    requires grounds { IsGrounds (grounds_seen grounds) }
    requires grantable { (of : RealmRec) (server : Principal) → slice_get dir.now.realms realm ≡ Some of → req.now.req_body.sname ≡ Some server → IsGrantable of server terms (grounds_seen grounds) }
    ensures { IfOk result (λ found. found ≡ grant_with dir.now (request_to req.now realm) (grounds_seen grounds.entry) terms) }
{
    let Some(server) = &req.req_body.sname else {
        return Ok(None);
    };
    let Some(held) = aim_holding(alloc, dir, realm, terms.aim)? else {
        return Ok(None);
    };
    dir.keeps_directory();
    bytes_fit(req.body_bytes.as_slice());
    terms_fit(terms);
    let of = dir.realm(realm);
    Ok(Some(GrantView {
        realm: of,
        at: realm,
        req,
        asked: server,
        server: ticket_name(alloc, of, server, terms.aim)?,
        terms,
        held,
        grounds,
    }))
}

impl<'a> GrantView<'a> {
    /// The record of the ticket.
    #[tactic(auto, unfolding(crate::specs::Grants::granted_record))]
    fn make_record(&self, alloc: Global, random: &[u8; 64]) -> Result<TicketRec, AllocError>
        ensures { IfOk result (λ made. made ≡ granted_record self.now random.now) }
    {
        Ok(TicketRec {
            holder: self.held.holder.try_clone(alloc)?,
            client: self.grounds.client(alloc, self.realm, self.terms.aim)?,
            subject: self.grounds.subject(alloc, self.realm)?,
            flags: self.terms.flags,
            session: session_key(self.terms.session, random),
            auth: self.grounds.auth(&self.terms),
            start: self.terms.start,
            end: self.terms.end,
            transited: self.grounds.transited(alloc, &self.terms)?,
            delegation: self.grounds.delegation(alloc, self.realm, self.asked)?,
        })
    }

    /// Tells that it is a grant.
    pub(crate) fn keeps_grant(&self)
        ensures { IsGrant self.now }
    {
        let _terms = self.terms;
    }

    /// The record of the ticket, of which a ticket can be made.
    pub(crate) fn granted_record(
        &self,
        alloc: Global,
        random: &[u8; 64],
    ) -> Result<TicketRec, AllocError>
        ensures value { IfOk result (λ made. made ≡ granted_record self.now random.now) }
        ensures sound { IfOk result (λ made. IsSound made) }
    {
        self.keeps_grant();
        bytes_fit(random);
        self.make_record(alloc, random)
    }
}
