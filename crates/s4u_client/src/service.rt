//! What a client sends to a service (RFC 4120, section 3.2.2).
ghost use Rattle.std.specs.Prelude.{◌≡◌, ◌<◌, ◌^◌, IfOk, length};
ghost use Rattle.s4u_client.specs.Requests.{begun_ap};
ghost use Rattle.s4u_client.specs.Writable.{IsCred};

use crate::cred::Cred;
use crate::parts::{authenticator_bytes, shown_bytes};
use kdc_records::bit_if;
use krb_names::{Bytes, Moment};
use std::alloc::{AllocError, Global};

/// The option of an AP-REQ that asks for mutual authentication, a bit (RFC 4120, section 5.5.1).
const MUTUAL_REQUIRED: u32 = 2;

/// The key usage of its authenticator (RFC 4120, section 7.5.1).
const AUTHENTICATOR_USAGE: u32 = 11;

/// An AP-REQ with a credential's ticket; `mutual` asks for mutual authentication.
#[tactic(auto, unfolding(crate::specs::Requests::service_request))]
pub fn begin_ap(
    alloc: Global,
    cred: &Cred,
    mutual: bool,
    now: Moment,
    random: &[u8; 64],
) -> Result<Bytes, AllocError>
    requires { IsCred cred.now }
    ensures ok { IfOk result (λ bytes. bytes ≡ begun_ap cred.now «mutual» now random.now) }
    ensures short { IfOk result (λ bytes. length bytes < 2 ^ 30) }
{
    let auth = authenticator_bytes(alloc, &cred.client, now, None, None)?;
    shown_bytes(
        alloc,
        cred,
        bit_if(MUTUAL_REQUIRED, mutual),
        AUTHENTICATOR_USAGE,
        random,
        auth.as_slice(),
    )
}
