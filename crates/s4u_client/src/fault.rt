//! Why a reply gives no credential.
use krb_names::Text;
use std::alloc::AllocError;

/// What of a reply is not as it was asked for.
#[derive(Clone, Copy, Debug, PartialEq, Eq)]
pub enum Field {
    Nonce,
    Client,
    Server,
    Etype,
}

/// Why a reply gives no credential, the first in this order.
#[derive(Debug, Drop)]
pub enum FinishFault {
    /// It is a KRB-ERROR with this code and text, which is empty where it is absent (RFC 4120, section 5.9.1).
    Denied(i32, Text),
    /// It is not the reply that was asked for, or its opened part does not read: the place in the bytes that do not read.
    Unreadable(u32),
    /// Its part does not open with the key.
    NotOpened,
    /// Something differs: what was sent, and what came, numbers in decimal and names as `PART/PART@REALM`.
    Differs(Field, Text, Text),
    /// Memory is wanted.
    NoMemory,
}

impl From<AllocError> for FinishFault {
    ghost use Rattle.std.specs.Prelude.{◌≡◌};
    ghost use Rattle.s4u_client.specs.declared.fault.FinishFault.TheVariants.{NoMemory};

    ghost from_gives = { λ _ fault. fault ≡ NoMemory };

    fn from(_: AllocError) -> FinishFault {
        FinishFault::NoMemory
    }
}
