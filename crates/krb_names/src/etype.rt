//! Encryption types, RFC 3962, section 7.
ghost use Rattle.std.specs.Prelude.{◌≡◌, pos};
ghost use Rattle.krb_names.specs.Etypes.{etype_number, etype_numbered, key_length};

/// The encryption types with AES: aes128-cts-hmac-sha1-96 with keys of 16 bytes, aes256-cts-hmac-sha1-96 with keys of 32.
#[derive(Clone, Copy, Debug, PartialEq, Eq)]
pub enum Etype {
    Aes128,
    Aes256,
}

impl Etype {
    /// The type with this number, which is 17 or 18.
    pub fn from_number(number: i32) -> Option<Etype>
        ensures { result ≡ etype_numbered number }
    {
        match number {
            17 => Some(Etype::Aes128),
            18 => Some(Etype::Aes256),
            _ => None,
        }
    }

    /// Its number, 17 or 18.
    pub fn number(self) -> i32
        ensures { result ≡ pos (etype_number self) }
    {
        match self {
            Etype::Aes128 => 17,
            Etype::Aes256 => 18,
        }
    }

    /// The bytes of its keys, 16 or 32.
    pub fn key_length(self) -> usize
        ensures { result ≡ key_length self }
    {
        match self {
            Etype::Aes128 => 16,
            Etype::Aes256 => 32,
        }
    }
}
