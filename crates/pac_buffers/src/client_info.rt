//! PAC_CLIENT_INFO (MS-PAC, section 2.7).

ghost use Rattle.std.specs.Prelude.{◌≡◌, ◌<◌, ◌≤◌, ◌^◌, length, IfOk, Ok};
ghost use Rattle.kdc_prelude.specs.Answers.{Answers};
ghost use Rattle.krb_names.specs.Utf16.{utf16le_text};
ghost use Rattle.ndr_core.specs.Gives.{Tells};
ghost use Rattle.ndr_core.specs.Object.{packed, packed_spelling};
ghost use Rattle.pac_buffers.specs.Client.{client};

use krb_names::{Bytes, Text, from_utf16le, to_utf16le};
use ndr_core::{LogonFault, NdrReader, NdrWriter};
use std::alloc::{AllocError, Global};

/// The client's name, and when it was authenticated, as FILETIME (units of 100 nanoseconds since 1601).
#[derive(Debug, Drop)]
pub struct ClientInfo {
    pub time: u64,
    pub name: Text,
}

fn whole(alloc: Global, bytes: &[u8]) -> Result<ClientInfo, LogonFault>
    requires { length bytes.now < 2 ^ 32 }
    ensures { Tells (λ x. x) result (packed client bytes.now) }
{
    let mut from = NdrReader::packed(bytes);
    let low = from.u32()?;
    let high = from.u32()?;
    let len = from.u16()?;
    let octets = from.raw(len as usize)?;
    let Some(name) = from_utf16le(alloc, octets)? else {
        return Err(LogonFault::BadText);
    };
    from.exhausted()?;
    Ok(ClientInfo {
        time: low as u64 + high as u64 * 0x1_0000_0000,
        name,
    })
}

impl ClientInfo {
    /// The client information that the bytes are.
    ///
    /// # Errors
    /// `Ndr` with `Truncated` and `Trailing`; `BadText` where the name is not UTF-16; `NoMemory`.
    pub fn read(alloc: Global, bytes: &[u8]) -> Result<ClientInfo, LogonFault>
        requires { length bytes.now < 2 ^ 32 }
        ensures found { IfOk result (client.IsNdr 0 bytes.now) }
        ensures only { (x : ClientInfo) → client.IsNdr 0 bytes.now x → Answers LogonFault.NoMemory result (Ok x) }
        ensures exact { Answers LogonFault.NoMemory result (packed client bytes.now) }
    {
        whole(alloc, bytes)
    }

    /// Its bytes. The name has at most 32,767 units of UTF-16.
    pub fn write(&self) -> Result<Bytes, AllocError>
        requires few { length (utf16le_text self.now.name) ≤ 65534 }
        ensures ok { IfOk result (λ bytes. bytes ≡ packed_spelling client self.now) }
        // What is written is read again.
        ensures exact { IfOk result (λ bytes. packed client bytes ≡ Ok self.now) }
        ensures short { IfOk result (λ bytes. length bytes < 2 ^ 30) }
    {
        let alloc = self.name.allocator();
        let octets = to_utf16le(alloc, self.name.as_str())?;
        let mut to = NdrWriter::packed(alloc);
        to.u32((self.time % 0x1_0000_0000) as u32)?;
        to.u32((self.time / 0x1_0000_0000) as u32)?;
        to.u16(octets.len() as u16)?;
        to.raw(octets.as_slice())?;
        Ok(Bytes::from_vec(to.into_vec()))
    }
}
