//! Comparing the signatures of a PAC.

ghost use Rattle.std.specs.Prelude.{◌≡◌, option_map, IsSome};
ghost use Rattle.std.specs.Option.{option_copied};
ghost use Rattle.pac_sign.specs.Sums.{sum_of, covered};
ghost use Rattle.pac_sign.specs.Verified.{server_holds, kdc_holds, ticket_holds, verified};

use crate::fault::SignFault;
use crate::value::{USAGE, value_for, value_place};
use krb_crypto::{is_same_sum, mac, mac_zeroed};
use krb_names::Key;
use pac_buffers::{PRIVSVR_CHECKSUM, PacView, SERVER_CHECKSUM, TICKET_CHECKSUM};

/// The checksum of a PAC with the values of its server and its KDC signature zero.
#[tactic(auto, unfolding(crate::specs::Sums::covered))]
fn covered_sum(pac: &PacView, server: &Key) -> [u8; 12]
    ensures { result ≡ sum_of server.now (covered pac.now) }
{
    let bytes = pac.bytes();
    mac_zeroed(
        server,
        USAGE,
        bytes,
        value_place(pac.place(SERVER_CHECKSUM), bytes.len()),
        value_place(pac.place(PRIVSVR_CHECKSUM), bytes.len()),
    )
}

fn server_holds(pac: &PacView, server: &Key) -> bool
    ensures { result ≡ server_holds server.now pac.now }
{
    match value_for(server, pac.buffer(SERVER_CHECKSUM)) {
        Some(value) => is_same_sum(&covered_sum(pac, server), value),
        None => false,
    }
}

fn kdc_holds(pac: &PacView, server: &Key, realm: &Key) -> bool
    ensures { result ≡ kdc_holds server.now realm.now pac.now }
{
    let sum = value_for(server, pac.buffer(SERVER_CHECKSUM)).unwrap_or(&[]);
    match value_for(realm, pac.buffer(PRIVSVR_CHECKSUM)) {
        Some(value) => is_same_sum(&mac(realm, USAGE, sum), value),
        None => false,
    }
}

fn ticket_holds(pac: &PacView, realm: &Key, part: &[u8]) -> bool
    ensures { result ≡ ticket_holds realm.now part.now pac.now }
{
    match value_for(realm, pac.buffer(TICKET_CHECKSUM)) {
        Some(value) => is_same_sum(&mac(realm, USAGE, part), value),
        None => false,
    }
}

/// Compares the server signature under the server's key, the KDC signature where the key of the key distribution
/// centre is given, and the ticket signature where a part is given too.
///
/// # Errors
/// The first of `Server`, `Kdc` and `Ticket` whose signature is missing, cut short, of another type than its key's,
/// or another one.
pub fn verify(
    pac: &PacView,
    server: &Key,
    realm: Option<&Key>,
    part: Option<&[u8]>,
) -> Result<(), SignFault>
    requires asked { IsSome part → IsSome realm }
    ensures exact { result ≡ verified server.now (option_copied realm.entry) (option_copied part.entry) pac.now }
{
    if !server_holds(pac, server) {
        return Err(SignFault::Server);
    }
    let Some(realm) = realm else {
        return Ok(());
    };
    if !kdc_holds(pac, server, realm) {
        return Err(SignFault::Kdc);
    }
    let Some(part) = part else {
        return Ok(());
    };
    if !ticket_holds(pac, realm, part) {
        return Err(SignFault::Ticket);
    }
    Ok(())
}
