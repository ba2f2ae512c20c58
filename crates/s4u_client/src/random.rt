//! What the random block of a request is for.
ghost use Rattle.std.specs.Prelude.{◌≡◌, length, true};
ghost use Rattle.aes_core.specs.Inverses.{AreBytes};
ghost use Rattle.krb_names.specs.Keys.{is_padded};
ghost use Rattle.s4u_client.specs.Requests.{confounder_of, subkey_of};

use krb_names::{Etype, Key};

/// The authenticator's subkey: the bytes 0 to 31.
#[tactic(auto, using(crate::proofs::Keys::whole_key))]
pub(crate) fn subkey_of(random: &[u8; 64]) -> Key
    ensures value { result ≡ subkey_of random.now }
    ensures whole { is_padded result ≡ true }
{
    Key::new(Etype::Aes256, &random[..32])
}

/// The confounder of what the client seals: the bytes 32 to 47.
pub(crate) fn confounder_of(random: &[u8; 64]) -> [u8; 16]
    ensures { result ≡ confounder_of random.now }
{
    let mut conf = [0; 16];
    conf.copy_from_slice(&random[32..48]);
    conf
}

/// The bounds of a key's octets.
pub(crate) fn key_fits(raw: &[u8; 32])
    ensures { (length raw.now ≡ 32) × AreBytes raw.now }
{
    bytes_fit(raw);
}

/// Bytes are below 256.
fn bytes_fit(bytes: &[u8])
    ensures { AreBytes bytes.now }
{}
