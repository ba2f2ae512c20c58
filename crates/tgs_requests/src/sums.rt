//! The checksums of the padata of S4U2self (MS-SFU, sections 2.2.1 and 2.2.2).
ghost use Rattle.std.specs.Prelude.{◌≡◌, IfOk};
ghost use Rattle.std.specs.Option.{option_copied};
ghost use Rattle.kdc_prelude.specs.Verdicts.{first_failing};
ghost use Rattle.tgs_requests.specs.Askings.{self_asked};
ghost use Rattle.tgs_requests.specs.Headers.{answering_key};
ghost use Rattle.tgs_requests.specs.SelfSums.{for_user_is_covered, for_user_is_keyed, sums_are_keyed, sums_are_right, user_rules, view_of, x509_user_is_covered, x509_user_is_keyed};

use crate::asking::SelfAsked;
use crate::authentication::{is_mac, is_sum_type_of};
use crate::header::Header;
use crate::user::names_one_user;
use crate::view::answering_key;
use kdc_records::Rule;
use krb_crypto::rc4_mac;
use krb_messages::KdcReq;
use krb_names::Key;
use s4u_padata::{ForUser, X509User, for_user_bytes};
use s4u_rules::SelfView;
use std::alloc::{AllocError, Global};

/// HMAC-MD5 with an RC4 key, a checksum type (RFC 4757, section 4).
const HMAC_MD5: i32 = -138;

/// The key usage of the checksum of PA-FOR-USER (MS-SFU, section 2.2.1).
const FOR_USER_USAGE: u32 = 17;

/// The key usage of the checksum of PA-S4U-X509-USER in a request (MS-SFU, section 2.2.2).
const X509_USER_USAGE: u32 = 26;

fn for_user_is_keyed(asked: Option<&ForUser>) -> bool
    ensures { result ≡ for_user_is_keyed (option_copied asked.entry) }
{
    match asked {
        Some(asked) => asked.sum_type == HMAC_MD5,
        None => true,
    }
}

fn x509_user_is_keyed(key: &Key, asked: Option<&X509User>) -> bool
    ensures { result ≡ x509_user_is_keyed key.now (option_copied asked.entry) }
{
    match asked {
        Some(asked) => is_sum_type_of(key, asked.sum_type),
        None => true,
    }
}

/// S2: the checksum of PA-FOR-USER is of type -138, that of PA-S4U-X509-USER of its key's type.
fn sums_are_keyed(header: &Header, asked: &SelfAsked) -> bool
    ensures { result ≡ sums_are_keyed header.now asked.now }
{
    for_user_is_keyed(asked.for_user.as_ref())
        && x509_user_is_keyed(answering_key(header), asked.x509_user.as_ref())
}

fn for_user_is_covered(
    alloc: Global,
    key: &Key,
    asked: Option<&ForUser>,
) -> Result<bool, AllocError>
    ensures { IfOk result (λ covered. covered ≡ for_user_is_covered key.now (option_copied asked.entry)) }
{
    let Some(asked) = asked else {
        return Ok(true);
    };
    let bytes = for_user_bytes(alloc, &asked.user, asked.package.as_str())?;
    let sum = rc4_mac(key.bytes(), FOR_USER_USAGE, bytes.as_slice());
    Ok(asked.sum.as_slice() == sum.as_slice())
}

fn x509_user_is_covered(key: &Key, asked: Option<&X509User>) -> bool
    ensures { result ≡ x509_user_is_covered key.now (option_copied asked.entry) }
{
    match asked {
        Some(asked) => is_mac(
            key,
            X509_USER_USAGE,
            asked.id_bytes.as_slice(),
            asked.sum.as_slice(),
        ),
        None => true,
    }
}

/// S3: each of the checksums is right.
fn sums_are_right(alloc: Global, header: &Header, asked: &SelfAsked) -> Result<bool, AllocError>
    ensures { IfOk result (λ right. right ≡ sums_are_right header.now asked.now) }
{
    let key = &header.opened.part.key;
    Ok(
        for_user_is_covered(alloc, key, asked.for_user.as_ref())?
            && x509_user_is_covered(answering_key(header), asked.x509_user.as_ref()),
    )
}

/// The first of the rules S1 to S3 that fails, of a request for S4U2self with this header. `asked` is what `read_asked`
/// gives of the request.
pub fn check_user(
    alloc: Global,
    header: &Header,
    message: &KdcReq,
    asked: Option<&SelfAsked>,
) -> Result<SelfView, AllocError>
    requires asked { option_copied asked ≡ self_asked message.now }
    ensures first { IfOk result (λ view. view ≡ view_of (first_failing (user_rules header.now message.now))) }
{
    let Some(asked) = asked else {
        return Ok(SelfView::Wrong(Rule::S1));
    };
    if !names_one_user(alloc, &message.req_body, asked)? {
        return Ok(SelfView::Wrong(Rule::S1));
    }
    if !sums_are_keyed(header, asked) {
        return Ok(SelfView::Wrong(Rule::S2));
    }
    if !sums_are_right(alloc, header, asked)? {
        return Ok(SelfView::Wrong(Rule::S3));
    }
    Ok(SelfView::Shown)
}
