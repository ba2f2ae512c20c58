//! Making the signatures of a PAC.

ghost use Rattle.std.specs.Prelude.{◌≡◌, option_map};
ghost use Rattle.std.specs.Option.{option_copied};
ghost use Rattle.pac_sign.specs.Signed.{server_sum, with_ticket, signed};

use crate::value::{USAGE, value_place};
use krb_crypto::{mac, mac_zeroed};
use krb_names::Key;
use pac_buffers::{PRIVSVR_CHECKSUM, Pac, SERVER_CHECKSUM, TICKET_CHECKSUM};

/// The checksum of a PAC with the values of its server and its KDC signature zero.
fn server_sum(pac: &Pac, server: &Key) -> [u8; 12]
    ensures { result ≡ server_sum server.now pac.now }
{
    let bytes = pac.as_slice();
    mac_zeroed(
        server,
        USAGE,
        bytes,
        value_place(pac.place(SERVER_CHECKSUM), bytes.len()),
        value_place(pac.place(PRIVSVR_CHECKSUM), bytes.len()),
    )
}

fn sign_ticket(pac: &mut Pac, realm: &Key, part: Option<&[u8]>)
    ensures { pac.new ≡ with_ticket realm.now (option_copied part.entry) pac.old }
{
    if let Some(part) = part {
        let _ = pac.put(TICKET_CHECKSUM, &mac(realm, USAGE, part));
    }
}

/// Signs a PAC that was built with the checksum types of these keys, and with a ticket signature exactly where a part
/// is given: the ticket signature under the realm's key over the part, the server signature under the server's key over
/// the PAC, and the KDC signature under the realm's key over the server signature.
#[tactic(auto, unfolding(crate::specs::Signed::signed))]
pub fn sign(pac: &mut Pac, server: &Key, realm: &Key, part: Option<&[u8]>)
    ensures value { pac.new ≡ signed server.now realm.now (option_copied part.entry) pac.old }
{
    sign_ticket(pac, realm, part);
    let sum = server_sum(pac, server);
    let _ = pac.put(SERVER_CHECKSUM, &sum);
    let _ = pac.put(PRIVSVR_CHECKSUM, &mac(realm, USAGE, &sum));
}
