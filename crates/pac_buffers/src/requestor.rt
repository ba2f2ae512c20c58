//! PAC_REQUESTOR (MS-PAC, section 2.15).

ghost use Rattle.std.specs.Prelude.{◌≡◌, ◌<◌, ◌≤◌, ◌^◌, length, IfOk, Ok};
ghost use Rattle.kdc_prelude.specs.Answers.{Answers};
ghost use Rattle.ndr_core.specs.Gives.{Tells};
ghost use Rattle.ndr_core.specs.Object.{packed, packed_spelling};
ghost use Rattle.pac_buffers.specs.Requestor.{requestor};

use krb_names::{Bytes, Sid};
use ndr_core::{LogonFault, NdrReader, NdrWriter};
use ndr_values::{put_packed_sid, read_packed_sid};
use std::alloc::{AllocError, Global};

/// The SID of the account that asked for the ticket.
#[derive(Clone, Copy, Debug, PartialEq, Eq)]
pub struct Requestor {
    pub sid: Sid,
}

fn whole(bytes: &[u8]) -> Result<Requestor, LogonFault>
    requires { length bytes.now < 2 ^ 32 }
    ensures { Tells (λ x. x) result (packed requestor bytes.now) }
{
    let mut from = NdrReader::packed(bytes);
    let sid = read_packed_sid(&mut from)?;
    from.exhausted()?;
    Ok(Requestor { sid })
}

impl Requestor {
    /// The requestor that the bytes are.
    ///
    /// # Errors
    /// `Ndr` with `BadCount` for another revision than 1 or a count outside 1 to 15, `Truncated` and `Trailing`.
    pub fn read(_alloc: Global, bytes: &[u8]) -> Result<Requestor, LogonFault>
        requires { length bytes.now < 2 ^ 32 }
        ensures found { IfOk result (requestor.IsNdr 0 bytes.now) }
        ensures only { (x : Requestor) → requestor.IsNdr 0 bytes.now x → Answers LogonFault.NoMemory result (Ok x) }
        ensures exact { Answers LogonFault.NoMemory result (packed requestor bytes.now) }
    {
        whole(bytes)
    }

    /// Its bytes.
    pub fn write(&self, alloc: Global) -> Result<Bytes, AllocError>
        ensures ok { IfOk result (λ bytes. bytes ≡ packed_spelling requestor self.now) }
        // What is written is read again.
        ensures exact { IfOk result (λ bytes. packed requestor bytes ≡ Ok self.now) }
    {
        let mut to = NdrWriter::packed(alloc);
        put_packed_sid(&mut to, &self.sid)?;
        Ok(Bytes::from_vec(to.into_vec()))
    }
}
