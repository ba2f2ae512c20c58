//! The reply to a granted request.
ghost use Rattle.std.specs.Prelude.{◌≡◌, ◌+◌, ◌<◌, ◌≤◌, ◌^◌, IfOk, length};
ghost use Rattle.std.specs.Option.{option_copied};
ghost use Rattle.aes_core.specs.Inverses.{AreBytes};
ghost use Rattle.krb_crypto.specs.Encryption.{seal};
ghost use Rattle.krb_messages.specs.EncKdcRep.{enc_kdc_rep};
ghost use Rattle.krb_messages.specs.KdcRep.{kdc_rep};
ghost use Rattle.krb_tickets.specs.Ticket.{ticket};
ghost use Rattle.ticket_parts.specs.Sound.{IsSound};
ghost use Rattle.tgs_core.specs.Grants.{granted_record, reply_confounder};
ghost use Rattle.tgs_core.specs.Replies.{reply_bytes, reply_key, reply_of, reply_padata, reply_part, sealed_with, ticket_made};

use crate::grant::GrantView;
use crate::random::{bytes_fit, reply_confounder, ticket_confounder};
use crate::reply_key::ReplyKey;
use der_forms::write;
use kdc_records::TicketRec;
use krb_crypto::seal;
use krb_messages::{EncKdcRep, KdcRep, LastReq, PaItems};
use krb_names::{Bytes, Items, TryClone};
use krb_tickets::{EncryptedData, Ticket};
use std::alloc::{AllocError, Global};
use ticket_codec::make_ticket;

impl<'a> GrantView<'a> {
    /// The ticket.
    fn make_ticket(
        &self,
        alloc: Global,
        rec: &TicketRec,
        random: &[u8; 64],
    ) -> Result<Ticket, AllocError>
        requires value { rec.now ≡ granted_record self.now random.now }
        requires sound { IsSound rec.now }
        ensures ok { IfOk result (λ made. made ≡ ticket_made self.now random.now) }
        ensures fits { IfOk result (λ made. ticket.Fits made) }
        ensures short { IfOk result (λ made. length (ticket.spelling made) < 2 ^ 25) }
    {
        make_ticket(
            alloc,
            rec,
            &self.server,
            &self.realm.name,
            &self.held.key.key,
            &self.realm.krbtgt.key,
            &ticket_confounder(random),
        )
    }

    /// The nonce of the request.
    fn nonce(&self) -> i64
        ensures { result ≡ self.now.request.wish.nonce }
    {
        self.req.req_body.nonce
    }

    /// What is sealed in the reply.
    fn reply_part(&self, alloc: Global, rec: &TicketRec) -> Result<EncKdcRep, AllocError>
        ensures { IfOk result (λ part. part ≡ reply_part self.now rec.now) }
    {
        let mut last_req = Items::new(alloc);
        last_req.push(LastReq {
            lr_type: 0,
            lr_value: self.terms.start,
        })?;
        Ok(EncKdcRep {
            tag: self.grounds.part_tag(),
            key: rec.session,
            last_req,
            nonce: self.nonce(),
            key_expiration: None,
            flags: rec.flags,
            authtime: rec.auth,
            starttime: Some(rec.start),
            endtime: rec.end,
            renew_till: None,
            srealm: self.realm.name.try_clone(alloc)?,
            sname: self.server.try_clone(alloc)?,
        })
    }

    /// The bytes of what is sealed in the reply.
    fn part_bytes(&self, alloc: Global, rec: &TicketRec) -> Result<Bytes, AllocError>
        requires { IsSound rec.now }
        ensures ok { IfOk result (λ bytes. bytes ≡ enc_kdc_rep.spelling (reply_part self.now rec.now)) }
        ensures short { IfOk result (λ bytes. length bytes ≤ 4096) }
    {
        self.keeps_grant();
        let part = self.reply_part(alloc, rec)?;
        write(alloc, &part)
    }

    /// What is sealed in the reply, as the grounds say.
    fn sealed_part(
        &self,
        alloc: Global,
        rec: &TicketRec,
        random: &[u8; 64],
    ) -> Result<EncryptedData, AllocError>
        requires { IsSound rec.now }
        ensures ok { IfOk result (λ sealed. sealed ≡ sealed_with (reply_key self.now.grounds) (reply_confounder random.now) (reply_part self.now rec.now)) }
        ensures short { IfOk result (λ sealed. length sealed.cipher ≤ 4124) }
    {
        let bytes = self.part_bytes(alloc, rec)?;
        let with = self.grounds.reply_key();
        Ok(EncryptedData {
            etype: with.key.etype.number(),
            kvno: with.version,
            cipher: seal_part(alloc, &with, &reply_confounder(random), bytes.as_slice())?,
        })
    }

    /// The padata of the reply.
    fn reply_padata(&self, alloc: Global) -> Result<Option<PaItems>, AllocError>
        ensures { IfOk result (λ items. items ≡ reply_padata self.now.grounds) }
    {
        self.keeps_grant();
        self.grounds.padata(alloc)
    }

    /// The reply.
    #[tactic(auto, unfolding(crate::specs::Replies::reply_of))]
    fn make_reply(&self, alloc: Global, random: &[u8; 64]) -> Result<KdcRep, AllocError>
        ensures ok { IfOk result (λ made. made ≡ reply_of self.now random.now) }
        ensures fits { IfOk result (λ made. kdc_rep.Fits made) }
        ensures short { IfOk result (λ made. length (kdc_rep.spelling made) < 2 ^ 31) }
    {
        self.keeps_grant();
        let rec = self.granted_record(alloc, random)?;
        let ticket = self.make_ticket(alloc, &rec, random)?;
        let enc_part = self.sealed_part(alloc, &rec, random)?;
        Ok(KdcRep {
            pvno: 5,
            msg_type: self.grounds.reply_type(),
            padata: self.reply_padata(alloc)?,
            crealm: rec.client.realm.try_clone(alloc)?,
            cname: rec.client,
            ticket,
            enc_part,
        })
    }
}

/// The bounds of a key's type.
fn key_fits(raw: &[u8; 32])
    ensures { (length raw.now ≡ 32) × AreBytes raw.now }
{
    bytes_fit(raw);
}

/// What is sealed in a reply, with 28 bytes round it.
fn seal_part(
    alloc: Global,
    with: &ReplyKey,
    conf: &[u8; 16],
    text: &[u8],
) -> Result<Bytes, AllocError>
    ensures value { IfOk result (λ cipher. cipher ≡ seal with.now.key with.now.usage conf.now text.now) }
    ensures size { IfOk result (λ cipher. length cipher ≡ length text.now + 28) }
{
    let cipher = seal(alloc, &with.key, with.usage, conf, text)?;
    key_fits(&with.key.raw);
    Ok(cipher)
}

/// The bytes of the reply to what is granted, none where nothing is.
pub(crate) fn reply(
    alloc: Global,
    grant: Option<&GrantView>,
    random: &[u8; 64],
) -> Result<Bytes, AllocError>
    ensures value { IfOk result (λ bytes. bytes ≡ reply_bytes (option_copied grant.entry) random.now) }
    ensures short { IfOk result (λ bytes. length bytes < 2 ^ 31) }
{
    match grant {
        None => Ok(Items::new(alloc)),
        Some(grant) => {
            let made = grant.make_reply(alloc, random)?;
            write(alloc, &made)
        }
    }
}
