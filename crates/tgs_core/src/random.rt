//! What the random block of a request is for.
ghost use Rattle.std.specs.Prelude.{◌≡◌};
ghost use Rattle.der_core.specs.Laws.{IsBytes};
ghost use Rattle.tgs_core.specs.Grants.{reply_confounder, session_key, ticket_confounder};

use krb_names::{Etype, Key};

/// Bytes are below 256.
pub(crate) fn bytes_fit(bytes: &[u8])
    ensures { IsBytes bytes.now }
{}

/// The session key: the first 16 or 32 bytes.
pub(crate) fn session_key(etype: Etype, random: &[u8; 64]) -> Key
    ensures { result ≡ session_key etype random.now }
{
    Key::new(etype, &random[..etype.key_length()])
}

/// The ticket's confounder: the bytes 32 to 47.
pub(crate) fn ticket_confounder(random: &[u8; 64]) -> [u8; 16]
    ensures { result ≡ ticket_confounder random.now }
{
    let mut conf = [0; 16];
    conf.copy_from_slice(&random[32..48]);
    conf
}

/// The reply part's confounder: the bytes 48 to 63.
pub(crate) fn reply_confounder(random: &[u8; 64]) -> [u8; 16]
    ensures { result ≡ reply_confounder random.now }
{
    let mut conf = [0; 16];
    conf.copy_from_slice(&random[48..64]);
    conf
}
