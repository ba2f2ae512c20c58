//! The answer to an AP-REQ that asks for mutual authentication (RFC 4120, sections 3.2.4 and 5.5.2).

ghost use Rattle.std.specs.Prelude.{◌≡◌, ◌+◌, ◌<◌, ◌≤◌, ◌^◌, IfOk, length};
ghost use Rattle.krb_crypto.specs.Encryption.{seal};
ghost use Rattle.krb_messages.specs.ApRep.{ap_rep};
ghost use Rattle.krb_messages.specs.Authenticator.{authenticator};
ghost use Rattle.krb_messages.specs.EncApRep.{enc_ap_rep};
ghost use Rattle.aes_core.specs.Inverses.{AreBytes};
ghost use Rattle.der_core.specs.Laws.{IsBytes};
ghost use Rattle.service_end.specs.Replies.{reply_bytes, reply_part, reply_to, reply_with, sealed_with};

use crate::shown::Shown;
use krb_crypto::seal;
use krb_messages::{ApRep, Authenticator, EncApRep};
use krb_names::{Bytes, Key};
use krb_tickets::{EncryptedData, Message, PlainMessage};
use std::alloc::{AllocError, Global};

/// The key usage of an AP-REP (RFC 4120, section 7.5.1).
const REPLY_USAGE: u32 = 12;

/// Bytes are below 256.
fn bytes_fit(bytes: &[u8])
    ensures { IsBytes bytes.now }
{}

/// The bounds of a key's type.
fn raw_fits(raw: &[u8; 32])
    ensures { (length raw.now ≡ 32) × AreBytes raw.now }
{
    bytes_fit(raw);
}

/// What is sealed in the reply: the authenticator's time.
fn reply_part(auth: &Authenticator) -> EncApRep
    ensures { result ≡ reply_part auth.now }
{
    EncApRep {
        ctime: auth.ctime,
        cusec: auth.cusec,
        subkey: None,
        seq_number: None,
    }
}

/// Its bytes.
fn part_bytes(alloc: Global, auth: &Authenticator) -> Result<Bytes, AllocError>
    requires { authenticator.Fits auth.now }
    ensures value { IfOk result (λ bytes. bytes ≡ enc_ap_rep.spelling (reply_part auth.now)) }
    ensures short { IfOk result (λ bytes. length bytes ≤ 256) }
{
    let part = reply_part(auth);
    part.write(alloc)
}

/// What is sealed in the reply, with 28 bytes round it.
fn seal_part(alloc: Global, key: &Key, conf: &[u8; 16], text: &[u8]) -> Result<Bytes, AllocError>
    ensures value { IfOk result (λ cipher. cipher ≡ seal key.now 12 conf.now text.now) }
    ensures size { IfOk result (λ cipher. length cipher ≡ length text.now + 28) }
{
    let cipher = seal(alloc, key, REPLY_USAGE, conf, text)?;
    raw_fits(&key.raw);
    Ok(cipher)
}

/// The reply with what was sealed under a key.
fn reply_with(key: &Key, cipher: Bytes) -> ApRep
    ensures { result ≡ reply_with (sealed_with key.now cipher) }
{
    ApRep {
        pvno: 5,
        msg_type: 15,
        enc_part: EncryptedData {
            etype: key.etype.number(),
            kvno: None,
            cipher,
        },
    }
}

/// Its bytes.
fn write_reply(key: &Key, cipher: Bytes) -> Result<Bytes, AllocError>
    requires { length cipher < 2 ^ 31 }
    ensures { IfOk result (λ bytes. bytes ≡ ap_rep.spelling (reply_with (sealed_with key.now cipher))) }
{
    let reply = reply_with(key, cipher);
    reply.write()
}

/// The bytes of the reply to what was shown.
#[tactic(auto, unfolding(crate::specs::Replies::reply_bytes))]
fn reply_bytes(alloc: Global, conf: &[u8; 16], shown: &Shown) -> Result<Bytes, AllocError>
    requires { authenticator.Fits shown.now.auth }
    ensures { IfOk result (λ bytes. bytes ≡ reply_bytes conf.now shown.now) }
{
    let key = &shown.part.key;
    let text = part_bytes(alloc, &shown.auth)?;
    let cipher = seal_part(alloc, key, conf, text.as_slice())?;
    write_reply(key, cipher)
}

/// The reply, where mutual authentication is asked for.
pub(crate) fn reply_to(
    alloc: Global,
    conf: &[u8; 16],
    shown: &Shown,
) -> Result<Option<Bytes>, AllocError>
    requires { authenticator.Fits shown.now.auth }
    ensures { IfOk result (λ reply. reply ≡ reply_to conf.now shown.now) }
{
    if shown.mutual_required {
        Ok(Some(reply_bytes(alloc, conf, shown)?))
    } else {
        Ok(None)
    }
}
