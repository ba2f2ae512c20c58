//! PAC_SIGNATURE_DATA (MS-PAC, section 2.8).

ghost use Rattle.std.specs.Prelude.{◌≡◌, ◌<◌, ◌^◌, ◌⊎◌, pos, length, IfOk, Ok};
ghost use Rattle.kdc_prelude.specs.Answers.{Answers};
ghost use Rattle.ndr_core.specs.Gives.{Tells};
ghost use Rattle.ndr_core.specs.Object.{packed_spelling};
ghost use Rattle.pac_buffers.specs.Signature.{signature, front_of, BeginsWith};

use krb_names::Bytes;
use ndr_core::{LogonFault, NdrCause, NdrReader, NdrWriter};
use std::alloc::{AllocError, Global};

/// A signature: the type of its checksum, 15 or 16, and the checksum.
#[derive(Clone, Copy, Debug, PartialEq, Eq)]
pub struct SignatureData {
    pub sum_type: i32,
    pub sum: [u8; 12],
}

fn front(bytes: &[u8]) -> Result<SignatureData, LogonFault>
    requires { length bytes.now < 2 ^ 32 }
    ensures { Tells (λ x. x) result (front_of signature bytes.now) }
{
    let mut from = NdrReader::packed(bytes);
    let sum_type = from.u32_within(15, 16, NdrCause::BadHeader)?;
    let bytes = from.raw(12)?;
    let mut sum = [0; 12];
    sum.copy_from_slice(bytes);
    Ok(SignatureData {
        sum_type: sum_type as i32,
        sum,
    })
}

impl SignatureData {
    /// The signature that the bytes begin with; what follows it is read past.
    ///
    /// # Errors
    /// `Ndr` with `Truncated`, and with `BadHeader` at 0 for a type other than 15 and 16.
    pub fn read(_alloc: Global, bytes: &[u8]) -> Result<SignatureData, LogonFault>
        requires { length bytes.now < 2 ^ 32 }
        ensures found { IfOk result (BeginsWith signature bytes.now) }
        ensures only { (x : SignatureData) → BeginsWith signature bytes.now x → Answers LogonFault.NoMemory result (Ok x) }
        ensures exact { Answers LogonFault.NoMemory result (front_of signature bytes.now) }
    {
        front(bytes)
    }

    /// Its 16 bytes.
    pub fn write(&self, alloc: Global) -> Result<Bytes, AllocError>
        requires kind { (self.now.sum_type ≡ pos 15) ⊎ (self.now.sum_type ≡ pos 16) }
        ensures ok { IfOk result (λ bytes. bytes ≡ packed_spelling signature self.now) }
        // What is written is read again.
        ensures exact { IfOk result (λ bytes. front_of signature bytes ≡ Ok self.now) }
    {
        let mut to = NdrWriter::packed(alloc);
        to.u32(self.sum_type as u32)?;
        to.raw(&self.sum)?;
        Ok(Bytes::from_vec(to.into_vec()))
    }
}
