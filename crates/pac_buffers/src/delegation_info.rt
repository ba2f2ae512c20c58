//! S4U_DELEGATION_INFO (MS-PAC, section 2.9).

ghost use Rattle.std.specs.Prelude.{◌≡◌, ◌<◌, ◌≤◌, ◌^◌, [], length, map, not, nat_eq, IfOk, OnOk, Ok, All};
ghost use Rattle.kdc_prelude.specs.Answers.{Answers};
ghost use Rattle.krb_names.specs.Utf16.{utf16le_text};
ghost use Rattle.ndr_core.specs.Gives.{Reads, Gives, Tells};
ghost use Rattle.ndr_core.specs.Layout.{pointed};
ghost use Rattle.ndr_core.specs.Arrays.{repeated, each};
ghost use Rattle.ndr_core.specs.Object.{object, spelling, IsObject};
ghost use Rattle.ndr_values.specs.Texts.{string_head, text_of, head_of};
ghost use Rattle.pac_buffers.specs.Delegation.{fixed, fixed_of, listed, delegation};

use krb_names::{Bytes, Text, Texts};
use ndr_core::{LogonFault, NdrCause, NdrReader, NdrRefusal, NdrWriter};
use ndr_values::{StringHead, put_head, put_text, read_head, read_text};
use std::alloc::{AllocError, Global};

/// The service that a ticket was asked for by S4U2proxy, and the services that it went through.
#[derive(Debug, Drop)]
pub struct DelegationInfo {
    pub target: Text,
    pub services: Texts,
}

fn read_fixed(from: &mut NdrReader) -> Result<(StringHead, (u32, bool)), NdrRefusal>
    ensures { Reads (λ x. x) result from.new (fixed.reading from.old) }
{
    let target = read_head(from)?;
    let size = from.u32_within(0, 32, NdrCause::TooMany)?;
    let there = from.pointer_to(size)?;
    Ok((target, (size, there)))
}

fn read_heads(
    alloc: Global,
    from: &mut NdrReader,
    count: u32,
) -> Result<Vec<StringHead>, LogonFault>
    ensures { Gives (λ v. v.items) result from.new ((repeated count string_head).reading from.old) }
{
    let mut heads = Vec::new(alloc);
    for _ in 0..count {
        let head = read_head(from)?;
        heads.push(head)?;
    }
    Ok(heads)
}

fn read_texts(
    alloc: Global,
    from: &mut NdrReader,
    heads: &[StringHead],
) -> Result<Texts, LogonFault>
    ensures { Gives (λ v. v) result from.new ((each text_of heads.now).reading from.old) }
{
    let mut texts = Texts::new(alloc);
    for head in heads {
        let text = read_text(alloc, from, *head)?;
        texts.push(text)?;
    }
    Ok(texts)
}

fn read_services(
    alloc: Global,
    from: &mut NdrReader,
    size: u32,
    there: bool,
) -> Result<Texts, LogonFault>
    ensures { Gives (λ v. v) result from.new ((pointed there (listed size) []).reading from.old) }
{
    if !there {
        return Ok(Texts::new(alloc));
    }
    from.count(size)?;
    let heads = read_heads(alloc, from, size)?;
    read_texts(alloc, from, heads.as_slice())
}

fn read_info(alloc: Global, from: &mut NdrReader) -> Result<DelegationInfo, LogonFault>
    ensures { Gives (λ x. x) result from.new (delegation.reading from.old) }
{
    let (head, (size, there)) = read_fixed(from)?;
    let target = read_text(alloc, from, head)?;
    let services = read_services(alloc, from, size, there)?;
    Ok(DelegationInfo { target, services })
}

fn whole(alloc: Global, bytes: &[u8]) -> Result<DelegationInfo, LogonFault>
    requires { length bytes.now < 2 ^ 32 }
    ensures { Tells (λ x. x) result (object delegation bytes.now) }
{
    let mut from = NdrReader::new(bytes)?;
    let info = read_info(alloc, &mut from)?;
    from.done()?;
    Ok(info)
}

fn put_heads(alloc: Global, to: &mut NdrWriter, texts: &[Text]) -> Result<(), AllocError>
    requires few { All (λ t. length (utf16le_text t) ≤ 65534) texts.now }
    ensures { OnOk result (to.new ≡ (repeated (length texts.now) string_head).written to.old (map head_of texts.now)) }
{
    for text in texts {
        put_head(alloc, to, text.as_str())?;
    }
    Ok(())
}

fn put_texts(alloc: Global, to: &mut NdrWriter, texts: &[Text]) -> Result<(), AllocError>
    requires few { All (λ t. length (utf16le_text t) ≤ 65534) texts.now }
    ensures ok { OnOk result (to.new ≡ (each text_of (map head_of texts.now)).written to.old texts.now) }
    ensures fits { OnOk result (All (λ t. (text_of (head_of t)).Fits t) texts.now) }
{
    for text in texts {
        put_text(alloc, to, text.as_str())?;
    }
    Ok(())
}

fn put_fixed(alloc: Global, to: &mut NdrWriter, info: &DelegationInfo) -> Result<(), AllocError>
    requires target { length (utf16le_text info.now.target) ≤ 65534 }
    requires few { length info.now.services ≤ 32 }
    ensures { OnOk result (to.new ≡ fixed.written to.old (fixed_of info.now)) }
{
    let size = info.services.len();
    put_head(alloc, to, info.target.as_str())?;
    to.u32(size as u32)?;
    to.pointer(size != 0)
}

fn put_services(alloc: Global, to: &mut NdrWriter, texts: &[Text]) -> Result<(), AllocError>
    requires few { length texts.now ≤ 32 }
    requires short { All (λ t. length (utf16le_text t) ≤ 65534) texts.now }
    ensures ok { OnOk result (to.new ≡ (pointed (not (nat_eq (length texts.now) 0)) (listed (length texts.now)) []).written to.old texts.now) }
    ensures fits { OnOk result (All (λ t. (text_of (head_of t)).Fits t) texts.now) }
{
    if texts.is_empty() {
        return Ok(());
    }
    to.u32(texts.len() as u32)?;
    put_heads(alloc, to, texts)?;
    put_texts(alloc, to, texts)
}

fn put_info(alloc: Global, to: &mut NdrWriter, info: &DelegationInfo) -> Result<(), AllocError>
    requires target { length (utf16le_text info.now.target) ≤ 65534 }
    requires few { length info.now.services ≤ 32 }
    requires short { All (λ t. length (utf16le_text t) ≤ 65534) info.now.services }
    ensures ok { OnOk result (to.new ≡ delegation.written to.old info.now) }
    ensures fits { OnOk result ((text_of (head_of info.now.target)).Fits info.now.target × All (λ t. (text_of (head_of t)).Fits t) info.now.services) }
{
    put_fixed(alloc, to, info)?;
    put_text(alloc, to, info.target.as_str())?;
    put_services(alloc, to, info.services.as_slice())
}

impl DelegationInfo {
    /// The delegation information that the bytes are.
    ///
    /// # Errors
    /// `Ndr` with the first fault of the layout, `TooMany` for more than 32 services; `BadText` where a string is not
    /// UTF-16; `NoMemory`.
    pub fn read(alloc: Global, bytes: &[u8]) -> Result<DelegationInfo, LogonFault>
        requires { length bytes.now < 2 ^ 32 }
        ensures found { IfOk result (IsObject delegation bytes.now) }
        ensures only { (x : DelegationInfo) → IsObject delegation bytes.now x → Answers LogonFault.NoMemory result (Ok x) }
        ensures exact { Answers LogonFault.NoMemory result (object delegation bytes.now) }
    {
        whole(alloc, bytes)
    }

    /// Its bytes. At most 32 services, and each text of at most 32,767 units of UTF-16.
    pub fn write(&self) -> Result<Bytes, AllocError>
        requires target { length (utf16le_text self.now.target) ≤ 65534 }
        requires few { length self.now.services ≤ 32 }
        requires texts { All (λ t. length (utf16le_text t) ≤ 65534) self.now.services }
        ensures ok { IfOk result (λ bytes. bytes ≡ spelling delegation self.now) }
        // What is written is read again.
        ensures exact { IfOk result (λ bytes. object delegation bytes ≡ Ok self.now) }
        ensures short { IfOk result (λ bytes. length bytes < 2 ^ 30) }
    {
        let alloc = self.services.allocator();
        let mut to = NdrWriter::new(alloc)?;
        put_info(alloc, &mut to, self)?;
        Ok(Bytes::from_vec(to.finish()?))
    }
}
