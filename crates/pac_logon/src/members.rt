//! The members of KERB_VALIDATION_INFO (MS-PAC, section 2.5), which stand before what they point to.

ghost use Rattle.std.specs.Prelude.{◌≡◌, ◌≤◌, ◌<◌, ◌^◌, [], length, OnOk};
ghost use Rattle.krb_names.specs.Utf16.{utf16le_text};
ghost use Rattle.ndr_core.specs.Gives.{Reads};
ghost use Rattle.ndr_values.specs.Texts.{string_head};
ghost use Rattle.pac_logon.specs.Members.{filetime, logon_times, name_heads, array_head, account_heads, domain_heads, control_fields, extra_heads, members, no_string, array_of, names_of, account_heads_of, domain_heads_of, no_extra};
ghost use Rattle.pac_logon.specs.Logon.{members_of};

use crate::logon_info::LogonInfo;
use ndr_core::{NdrReader, NdrRefusal, NdrWriter};
use ndr_values::{StringHead, put_head, read_head};
use std::alloc::{AllocError, Global};

/// An array where it stands: how many elements it is said to have, and whether it points to something.
#[derive(Clone, Copy)]
pub struct ArrayHead {
    pub count: u32,
    pub there: bool,
}

/// The strings of a user, where they stand.
#[derive(Clone, Copy)]
pub struct NameHeads {
    pub effective_name: StringHead,
    pub full_name: StringHead,
    pub logon_script: StringHead,
    pub profile_path: StringHead,
    pub home_directory: StringHead,
    pub home_directory_drive: StringHead,
}

/// A user's number in its domain, and where its groups stand.
#[derive(Clone, Copy)]
pub struct AccountHeads {
    pub user_id: u32,
    pub group_ids: ArrayHead,
}

/// The strings of a domain, where they stand.
#[derive(Clone, Copy)]
pub struct DomainHeads {
    pub logon_server: StringHead,
    pub logon_domain_name: StringHead,
}

/// The last members, which point to what is read past.
#[derive(Clone, Copy)]
pub struct ExtraHeads {
    pub extra_sids: ArrayHead,
    pub resource_group_domain_sid: bool,
    pub resource_group_ids: ArrayHead,
}

/// The members, without those that are read past.
#[derive(Clone, Copy)]
pub struct Members {
    pub logon_time: u64,
    pub names: NameHeads,
    pub account: AccountHeads,
    pub domain: DomainHeads,
    pub user_account_control: u32,
    pub extra: ExtraHeads,
}

/// The FILETIME of a time that never comes.
const NEVER: u64 = 0x7fff_ffff_ffff_ffff;

/// The number of the domain's users.
const DOMAIN_USERS: u32 = 513;

#[tactic(auto, unfolding(crate::specs::Members::filetime))]
fn read_filetime(from: &mut NdrReader) -> Result<u64, NdrRefusal>
    ensures { Reads (λ t. t) result from.new (filetime.reading from.old) }
{
    let low = from.u32()?;
    let high = from.u32()?;
    Ok(low as u64 + high as u64 * 0x1_0000_0000)
}

#[tactic(auto, unfolding(crate::specs::Members::logon_times))]
fn read_times(from: &mut NdrReader) -> Result<u64, NdrRefusal>
    ensures { Reads (λ t. t) result from.new (logon_times.reading from.old) }
{
    let logon_time = read_filetime(from)?;
    let _logoff_time = read_filetime(from)?;
    let _kick_off_time = read_filetime(from)?;
    let _password_last_set = read_filetime(from)?;
    let _password_can_change = read_filetime(from)?;
    let _password_must_change = read_filetime(from)?;
    Ok(logon_time)
}

#[tactic(auto, unfolding(crate::specs::Members::name_heads))]
fn read_names(from: &mut NdrReader) -> Result<NameHeads, NdrRefusal>
    ensures { Reads (λ h. h) result from.new (name_heads.reading from.old) }
{
    let effective_name = read_head(from)?;
    let full_name = read_head(from)?;
    let logon_script = read_head(from)?;
    let profile_path = read_head(from)?;
    let home_directory = read_head(from)?;
    let home_directory_drive = read_head(from)?;
    Ok(NameHeads {
        effective_name,
        full_name,
        logon_script,
        profile_path,
        home_directory,
        home_directory_drive,
    })
}

#[tactic(auto, unfolding(crate::specs::Members::array_head))]
fn read_array(from: &mut NdrReader) -> Result<ArrayHead, NdrRefusal>
    ensures { Reads (λ h. h) result from.new (array_head.reading from.old) }
{
    let count = from.u32()?;
    let there = from.pointer_to(count)?;
    Ok(ArrayHead { count, there })
}

#[tactic(auto, unfolding(crate::specs::Members::account_heads))]
fn read_account(from: &mut NdrReader) -> Result<AccountHeads, NdrRefusal>
    ensures { Reads (λ h. h) result from.new (account_heads.reading from.old) }
{
    let _logon_count = from.u16()?;
    let _bad_password_count = from.u16()?;
    let user_id = from.u32()?;
    let _primary_group_id = from.u32()?;
    let group_ids = read_array(from)?;
    let _user_flags = from.u32()?;
    let _user_session_key = from.raw(16)?;
    Ok(AccountHeads { user_id, group_ids })
}

#[tactic(auto, unfolding(crate::specs::Members::domain_heads))]
fn read_domain(from: &mut NdrReader) -> Result<DomainHeads, NdrRefusal>
    ensures { Reads (λ h. h) result from.new (domain_heads.reading from.old) }
{
    let logon_server = read_head(from)?;
    let logon_domain_name = read_head(from)?;
    let _logon_domain_id = from.pointer_to(1)?;
    Ok(DomainHeads {
        logon_server,
        logon_domain_name,
    })
}

#[tactic(auto, unfolding(crate::specs::Members::control_fields))]
fn read_control(from: &mut NdrReader) -> Result<u32, NdrRefusal>
    ensures { Reads (λ n. n) result from.new (control_fields.reading from.old) }
{
    let _reserved = from.u32()?;
    let _more_reserved = from.u32()?;
    let user_account_control = from.u32()?;
    let _sub_auth_status = from.u32()?;
    let _last_successful_logon = read_filetime(from)?;
    let _last_failed_logon = read_filetime(from)?;
    let _failed_logon_count = from.u32()?;
    let _reserved_3 = from.u32()?;
    Ok(user_account_control)
}

#[tactic(auto, unfolding(crate::specs::Members::extra_heads))]
fn read_extra(from: &mut NdrReader) -> Result<ExtraHeads, NdrRefusal>
    ensures { Reads (λ h. h) result from.new (extra_heads.reading from.old) }
{
    let extra_sids = read_array(from)?;
    let resource_group_domain_sid = from.pointer()?;
    let resource_group_ids = read_array(from)?;
    Ok(ExtraHeads {
        extra_sids,
        resource_group_domain_sid,
        resource_group_ids,
    })
}

/// Reads the members. A refusal may leave the reader anywhere.
#[tactic(auto, unfolding(crate::specs::Members::members))]
pub fn read_members(from: &mut NdrReader) -> Result<Members, NdrRefusal>
    ensures { Reads (λ m. m) result from.new (members.reading from.old) }
{
    let logon_time = read_times(from)?;
    let names = read_names(from)?;
    let account = read_account(from)?;
    let domain = read_domain(from)?;
    let user_account_control = read_control(from)?;
    let extra = read_extra(from)?;
    Ok(Members {
        logon_time,
        names,
        account,
        domain,
        user_account_control,
        extra,
    })
}

#[tactic(auto, unfolding(crate::specs::Members::filetime))]
fn put_filetime(to: &mut NdrWriter, time: u64) -> Result<(), AllocError>
    ensures { OnOk result (to.new ≡ filetime.written to.old time) }
{
    to.u32((time % 0x1_0000_0000) as u32)?;
    to.u32((time / 0x1_0000_0000) as u32)
}

fn put_no_string(to: &mut NdrWriter) -> Result<(), AllocError>
    ensures { OnOk result (to.new ≡ string_head.written to.old no_string) }
{
    to.u16(0)?;
    to.u16(0)?;
    to.pointer(false)
}

#[tactic(auto, unfolding(crate::specs::Members::array_head))]
fn put_array(to: &mut NdrWriter, elements: &[u32]) -> Result<(), AllocError>
    requires few { length elements.now ≤ 1024 }
    ensures { OnOk result (to.new ≡ array_head.written to.old (array_of elements.now)) }
{
    to.u32(elements.len() as u32)?;
    to.pointer(!elements.is_empty())
}

#[tactic(auto, unfolding(crate::specs::Members::logon_times))]
fn put_times(to: &mut NdrWriter, logon_time: u64) -> Result<(), AllocError>
    ensures { OnOk result (to.new ≡ logon_times.written to.old logon_time) }
{
    put_filetime(to, logon_time)?;
    put_filetime(to, NEVER)?;
    put_filetime(to, NEVER)?;
    put_filetime(to, 0)?;
    put_filetime(to, 0)?;
    put_filetime(to, NEVER)
}

#[tactic(auto, unfolding(crate::specs::Members::name_heads))]
fn put_names(alloc: Global, to: &mut NdrWriter, name: &str) -> Result<(), AllocError>
    requires few { length (utf16le_text name.now) ≤ 65534 }
    ensures { OnOk result (to.new ≡ name_heads.written to.old (names_of name.now)) }
{
    put_head(alloc, to, name)?;
    put_no_string(to)?;
    put_no_string(to)?;
    put_no_string(to)?;
    put_no_string(to)?;
    put_no_string(to)
}

#[tactic(auto, unfolding(crate::specs::Members::account_heads))]
fn put_account(to: &mut NdrWriter, user_id: u32, groups: &[u32]) -> Result<(), AllocError>
    requires few { length groups.now ≤ 1024 }
    ensures { OnOk result (to.new ≡ account_heads.written to.old (account_heads_of user_id groups.now)) }
{
    to.u16(0)?;
    to.u16(0)?;
    to.u32(user_id)?;
    to.u32(DOMAIN_USERS)?;
    put_array(to, groups)?;
    to.u32(0)?;
    to.raw(&[0; 16])
}

#[tactic(auto, unfolding(crate::specs::Members::domain_heads))]
fn put_domain(alloc: Global, to: &mut NdrWriter, name: &str) -> Result<(), AllocError>
    requires few { length (utf16le_text name.now) ≤ 65534 }
    ensures { OnOk result (to.new ≡ domain_heads.written to.old (domain_heads_of name.now)) }
{
    put_no_string(to)?;
    put_head(alloc, to, name)?;
    to.pointer(true)
}

#[tactic(auto, unfolding(crate::specs::Members::control_fields))]
fn put_control(to: &mut NdrWriter, user_account_control: u32) -> Result<(), AllocError>
    ensures { OnOk result (to.new ≡ control_fields.written to.old user_account_control) }
{
    to.u32(0)?;
    to.u32(0)?;
    to.u32(user_account_control)?;
    to.u32(0)?;
    put_filetime(to, 0)?;
    put_filetime(to, 0)?;
    to.u32(0)?;
    to.u32(0)
}

#[tactic(auto, unfolding(crate::specs::Members::extra_heads))]
fn put_no_extra(to: &mut NdrWriter) -> Result<(), AllocError>
    ensures { OnOk result (to.new ≡ extra_heads.written to.old no_extra) }
{
    put_array(to, &[])?;
    to.pointer(false)?;
    put_array(to, &[])
}

/// Writes the members.
#[tactic(auto, unfolding(crate::specs::Members::members))]
pub fn put_members(alloc: Global, to: &mut NdrWriter, info: &LogonInfo) -> Result<(), AllocError>
    requires name { length (utf16le_text info.now.subject.name) ≤ 65534 }
    requires domain { length (utf16le_text info.now.subject.domain) ≤ 65534 }
    requires few { length info.now.subject.groups ≤ 1024 }
    ensures { OnOk result (to.new ≡ members.written to.old (members_of info.now)) }
{
    let subject = &info.subject;
    put_times(to, info.time)?;
    put_names(alloc, to, subject.name.as_str())?;
    put_account(to, subject.number, subject.groups.as_slice())?;
    put_domain(alloc, to, subject.domain.as_str())?;
    put_control(to, subject.control)?;
    put_no_extra(to)
}
