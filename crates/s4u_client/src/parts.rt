//! What a client seals: authenticators and timestamps, and the AP-REQ round an authenticator (RFC 4120, sections 5.2.7.2 and 5.5.1).
ghost use Rattle.std.specs.Prelude.{◌≡◌, ◌+◌, ◌<◌, ◌≤◌, ◌^◌, IfOk, IfSome, length, pos};
ghost use Rattle.krb_crypto.specs.Encryption.{seal};
ghost use Rattle.krb_messages.specs.ApReq.{ap_req};
ghost use Rattle.krb_messages.specs.Authenticator.{authenticator};
ghost use Rattle.krb_messages.specs.PaEncTsEnc.{pa_enc_ts_enc};
ghost use Rattle.pac_sign.specs.Sums.{sum_type};
ghost use Rattle.s4u_client.specs.Requests.{authenticator_at, body_sum, confounder_of, sealed_under, shown_with, stamp_at};
ghost use Rattle.s4u_client.specs.Writable.{IsCred, IsName, IsShortSum, IsWhole};

use crate::cred::Cred;
use crate::names::copy_ticket;
use crate::random::{confounder_of, key_fits};
use der_forms::write;
use krb_crypto::{mac, seal};
use krb_messages::{ApReq, Authenticator, Checksum, PaEncTsEnc};
use krb_names::{Bytes, Etype, Items, KTime, Key, Moment, Principal, TryClone};
use krb_tickets::EncryptedData;
use std::alloc::{AllocError, Global};

/// The key usage of the checksum of a TGS-REQ's body (RFC 4120, section 7.5.1).
const BODY_USAGE: u32 = 6;

/// The type of a key's checksums: hmac-sha1-96-aes128, hmac-sha1-96-aes256 (RFC 3962, section 7).
pub(crate) fn sum_type(etype: Etype) -> i32
    ensures { result ≡ pos (sum_type etype) }
{
    match etype {
        Etype::Aes128 => 15,
        Etype::Aes256 => 16,
    }
}

/// The checksum of the body of a request.
#[tactic(auto, using(crate::proofs::Keys::sum_type_fits, crate::proofs::Keys::mac_short))]
pub(crate) fn body_sum(alloc: Global, key: &Key, body: &[u8]) -> Result<Checksum, AllocError>
    ensures value { IfOk result (λ sum. sum ≡ body_sum key.now body.now) }
    ensures short { IfOk result IsShortSum }
{
    Ok(Checksum {
        cksumtype: sum_type(key.etype),
        checksum: Items::copy(alloc, &mac(key, BODY_USAGE, body))?,
    })
}

/// A text under a key, 28 bytes longer than it.
fn seal_text(
    alloc: Global,
    key: &Key,
    usage: u32,
    conf: &[u8; 16],
    text: &[u8],
) -> Result<Bytes, AllocError>
    ensures value { IfOk result (λ cipher. cipher ≡ seal key.now usage conf.now text.now) }
    ensures size { IfOk result (λ cipher. length cipher ≡ length text.now + 28) }
{
    let cipher = seal(alloc, key, usage, conf, text)?;
    key_fits(&key.raw);
    Ok(cipher)
}

/// A text under a key, without a version.
pub(crate) fn sealed_under(
    alloc: Global,
    key: &Key,
    usage: u32,
    random: &[u8; 64],
    text: &[u8],
) -> Result<EncryptedData, AllocError>
    ensures value { IfOk result (λ sealed. sealed ≡ sealed_under key.now usage (confounder_of random.now) text.now) }
    ensures size { IfOk result (λ sealed. length sealed.cipher ≡ length text.now + 28) }
{
    Ok(EncryptedData {
        etype: key.etype.number(),
        kvno: None,
        cipher: seal_text(alloc, key, usage, &confounder_of(random), text)?,
    })
}

/// The bytes of a timestamp.
#[tactic(auto, using(crate::proofs::Forms::stamp_fits, crate::proofs::Forms::stamp_short))]
pub(crate) fn stamp_bytes(alloc: Global, now: Moment) -> Result<Bytes, AllocError>
    ensures ok { IfOk result (λ bytes. bytes ≡ pa_enc_ts_enc.spelling (stamp_at now)) }
    ensures short { IfOk result (λ bytes. length bytes ≤ 53) }
{
    let stamp = PaEncTsEnc {
        patimestamp: KTime::new(now.secs),
        pausec: Some(now.micros as i32),
    };
    write(alloc, &stamp)
}

/// An authenticator.
fn authenticator_at(
    alloc: Global,
    client: &Principal,
    now: Moment,
    cksum: Option<Checksum>,
    subkey: Option<Key>,
) -> Result<Authenticator, AllocError>
    ensures { IfOk result (λ made. made ≡ authenticator_at client.now now cksum subkey) }
{
    Ok(Authenticator {
        authenticator_vno: 5,
        crealm: client.realm.try_clone(alloc)?,
        cname: client.try_clone(alloc)?,
        cksum,
        cusec: now.micros as i32,
        ctime: KTime::new(now.secs),
        subkey,
        seq_number: None,
    })
}

/// The bytes of an authenticator.
#[tactic(auto, using(crate::proofs::Forms::auth_fits, crate::proofs::Forms::auth_short))]
pub(crate) fn authenticator_bytes(
    alloc: Global,
    client: &Principal,
    now: Moment,
    cksum: Option<Checksum>,
    subkey: Option<Key>,
) -> Result<Bytes, AllocError>
    requires client { IsName client.now }
    requires cksum { IfSome cksum IsShortSum }
    requires subkey { IfSome subkey IsWhole }
    ensures ok { IfOk result (λ bytes. bytes ≡ authenticator.spelling (authenticator_at client.now now cksum subkey)) }
    ensures short { IfOk result (λ bytes. length bytes ≤ 4096) }
{
    let auth = authenticator_at(alloc, client, now, cksum, subkey)?;
    write(alloc, &auth)
}

/// An AP-REQ with a credential's ticket and an authenticator, given as bytes.
fn shown_with(
    alloc: Global,
    cred: &Cred,
    options: u32,
    usage: u32,
    random: &[u8; 64],
    auth: &[u8],
) -> Result<ApReq, AllocError>
    requires { length auth.now ≤ 4096 }
    ensures value { IfOk result (λ made. made ≡ shown_with cred.now options usage random.now auth.now) }
    ensures size { IfOk result (λ made. length made.authenticator.cipher ≤ 4124) }
{
    Ok(ApReq {
        pvno: 5,
        msg_type: 14,
        ap_options: options,
        ticket: copy_ticket(alloc, &cred.ticket)?,
        authenticator: sealed_under(alloc, &cred.session, usage, random, auth)?,
    })
}

/// The bytes of an AP-REQ.
#[tactic(auto, using(crate::proofs::Forms::shown_fits, crate::proofs::Forms::shown_short))]
pub(crate) fn shown_bytes(
    alloc: Global,
    cred: &Cred,
    options: u32,
    usage: u32,
    random: &[u8; 64],
    auth: &[u8],
) -> Result<Bytes, AllocError>
    requires cred { IsCred cred.now }
    requires auth { length auth.now ≤ 4096 }
    ensures ok { IfOk result (λ bytes. bytes ≡ ap_req.spelling (shown_with cred.now options usage random.now auth.now)) }
    ensures short { IfOk result (λ bytes. length bytes ≤ 2 ^ 27 + 4500) }
{
    let shown = shown_with(alloc, cred, options, usage, random, auth)?;
    write(alloc, &shown)
}
