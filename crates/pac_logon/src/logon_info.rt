//! The logon information of a PAC, KERB_VALIDATION_INFO (MS-PAC, section 2.5).

ghost use Rattle.std.specs.Prelude.{◌≡◌, ◌<◌, ◌≤◌, ◌^◌, length, IfOk, OnOk, Ok};
ghost use Rattle.kdc_prelude.specs.Answers.{Answers};
ghost use Rattle.krb_names.specs.Utf16.{utf16le_text};
ghost use Rattle.ndr_core.specs.Gives.{Gives, Tells};
ghost use Rattle.ndr_core.specs.Object.{object, spelling, IsObject};
ghost use Rattle.pac_logon.specs.Logon.{logon, subject_sid};

use crate::laws::keeps_bounds;
use crate::members::{put_members, read_members};
use crate::referents::{put_subject, read_subject};
use krb_names::{Bytes, Numbers, Sid, Text};
use ndr_core::{LogonFault, NdrReader, NdrWriter};
use std::alloc::{AllocError, Global};

/// The user that a PAC speaks of.
#[derive(Debug, Drop)]
pub struct Subject4 {
    /// EffectiveName.
    pub name: Text,
    /// LogonDomainName.
    pub domain: Text,
    /// LogonDomainId, of at most 14 sub-authorities.
    pub domain_sid: Sid,
    /// UserId: the user's number in its domain.
    pub number: u32,
    /// UserAccountControl.
    pub control: u32,
    /// The RelativeId of each of GroupIds: its groups' numbers in its domain, at most 1,024.
    pub groups: Numbers,
}

/// The user, and when it was authenticated.
#[derive(Debug, Drop)]
pub struct LogonInfo {
    pub subject: Subject4,
    /// LogonTime, as FILETIME (units of 100 nanoseconds since 1601).
    pub time: u64,
}

impl LogonInfo {
    /// The user's SID: the domain's, followed by the user's number.
    pub fn subject_sid(&self) -> Sid
        requires few { length self.now.subject.domain_sid.numbers ≤ 14 }
        ensures value { result ≡ subject_sid self.now }
    {
        self.subject.domain_sid.followed_by(self.subject.number)
    }
}

fn read_info(alloc: Global, from: &mut NdrReader) -> Result<LogonInfo, LogonFault>
    ensures { Gives (λ x. x) result from.new (logon.reading from.old) }
{
    let members = read_members(from)?;
    let subject = read_subject(alloc, from, &members)?;
    Ok(LogonInfo {
        subject,
        time: members.logon_time,
    })
}

fn whole(alloc: Global, bytes: &[u8]) -> Result<LogonInfo, LogonFault>
    requires { length bytes.now < 2 ^ 32 }
    ensures { Tells (λ x. x) result (object logon bytes.now) }
{
    let mut from = NdrReader::new(bytes)?;
    let info = read_info(alloc, &mut from)?;
    from.done()?;
    Ok(info)
}

/// The logon information that the bytes are.
///
/// # Errors
/// `Ndr` with the first fault of the layout: `BadCount` for a null LogonDomainId or one of more than 14
/// sub-authorities too, `TooMany` for an array of more than 1,024 elements; `BadText` where EffectiveName or
/// LogonDomainName is not UTF-16; `NoMemory`.
pub fn read_logon(alloc: Global, bytes: &[u8]) -> Result<LogonInfo, LogonFault>
    requires { length bytes.now < 2 ^ 32 }
    ensures found { IfOk result (IsObject logon bytes.now) }
    ensures only { (x : LogonInfo) → IsObject logon bytes.now x → Answers LogonFault.NoMemory result (Ok x) }
    ensures exact { Answers LogonFault.NoMemory result (object logon bytes.now) }
    ensures few { IfOk result (λ info. length info.subject.domain_sid.numbers ≤ 14) }
{
    whole(alloc, bytes)
}

fn put_info(alloc: Global, to: &mut NdrWriter, info: &LogonInfo) -> Result<(), AllocError>
    requires name { length (utf16le_text info.now.subject.name) ≤ 65534 }
    requires domain { length (utf16le_text info.now.subject.domain) ≤ 65534 }
    requires few { length info.now.subject.groups ≤ 1024 }
    ensures { OnOk result (to.new ≡ logon.written to.old info.now) }
{
    put_members(alloc, to, info)?;
    put_subject(alloc, to, info)
}

/// Its bytes, which read as it. Each text has at most 32,767 units of UTF-16, and there are at most 1,024 groups.
pub fn write_logon(alloc: Global, info: &LogonInfo) -> Result<Bytes, AllocError>
    requires name { length (utf16le_text info.now.subject.name) ≤ 65534 }
    requires domain { length (utf16le_text info.now.subject.domain) ≤ 65534 }
    requires sid { length info.now.subject.domain_sid.numbers ≤ 14 }
    requires few { length info.now.subject.groups ≤ 1024 }
    ensures ok { IfOk result (λ bytes. bytes ≡ spelling logon info.now) }
    // What is written is read again.
    ensures exact { IfOk result (λ bytes. object logon bytes ≡ Ok info.now) }
    ensures short { IfOk result (λ bytes. length bytes < 2 ^ 30) }
{
    // Does nothing; its contract tells that `info` can be written.
    keeps_bounds(info);
    let mut to = NdrWriter::new(alloc)?;
    put_info(alloc, &mut to, info)?;
    Ok(Bytes::from_vec(to.finish()?))
}
