//! Keys, RFC 4120, section 5.2.9.
ghost use Rattle.std.specs.Prelude.{◌≡◌, length};
ghost use Rattle.krb_names.specs.Etypes.{key_length};
ghost use Rattle.krb_names.specs.Keys.{key_bytes, key_of};

use crate::etype::Etype;
use std::fmt;

/// An EncryptionKey: its type, and its octets with zeros behind them up to 32. Its `Debug` tells the type alone.
#[derive(Clone, Copy, PartialEq, Eq)]
pub struct Key {
    pub etype: Etype,
    pub raw: [u8; 32],
}

impl Key {
    /// The key with these octets, as many as its type has.
    pub fn new(etype: Etype, bytes: &[u8]) -> Key
        requires { length bytes.now ≡ key_length etype }
        ensures { result ≡ key_of etype bytes.now }
    {
        let mut raw = [0; 32];
        raw[..bytes.len()].copy_from_slice(bytes);
        Key { etype, raw }
    }

    /// Its octets, 16 or 32.
    pub fn bytes(&self) -> &[u8]
        ensures { result.now ≡ key_bytes self.now }
    {
        &self.raw[..self.etype.key_length()]
    }
}

impl fmt::Debug for Key {
    fn fmt<W: fmt::Write>(&self, f: &mut fmt::Formatter<W>) -> fmt::Result {
        f.debug_struct("Key")
            .field("etype", &self.etype)
            .finish_non_exhaustive()
    }
}
