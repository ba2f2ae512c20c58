//! What the members of KERB_VALIDATION_INFO point to (MS-PAC, section 2.5).

ghost use Rattle.std.specs.Prelude.{◌≡◌, ◌≤◌, ◌<◌, ◌^◌, length, OnOk};
ghost use Rattle.krb_names.specs.Utf16.{utf16le_text};
ghost use Rattle.ndr_core.specs.Gives.{Reads, Gives};
ghost use Rattle.ndr_core.specs.Arrays.{repeated};
ghost use Rattle.pac_logon.specs.Members.{array_of, names_of, domain_heads_of};
ghost use Rattle.pac_logon.specs.Referents.{name_behind, group, group_array, groups_behind, domain_behind, subject_behind};
ghost use Rattle.pac_logon.specs.Logon.{members_of};

use crate::extra::skip_extra;
use crate::logon_info::{LogonInfo, Subject4};
use crate::members::{ArrayHead, DomainHeads, Members, NameHeads};
use krb_names::{Numbers, Sid, Text};
use ndr_core::{LogonFault, NdrReader, NdrRefusal, NdrWriter};
use ndr_values::{put_sid, put_text, read_octets, read_sid, read_text};
use std::alloc::{AllocError, Global};

/// What a group's attributes are written as: mandatory, enabled, enabled by default.
const ATTRIBUTES: u32 = 7;

#[tactic(auto, unfolding(crate::specs::Referents::name_behind))]
fn read_name(alloc: Global, from: &mut NdrReader, heads: &NameHeads) -> Result<Text, LogonFault>
    ensures { Gives (λ t. t) result from.new ((name_behind heads.now).reading from.old) }
{
    let name = read_text(alloc, from, heads.effective_name)?;
    read_octets(from, heads.full_name)?;
    read_octets(from, heads.logon_script)?;
    read_octets(from, heads.profile_path)?;
    read_octets(from, heads.home_directory)?;
    read_octets(from, heads.home_directory_drive)?;
    Ok(name)
}

/// Reads a group's number, past its attributes. A refusal may leave the reader anywhere.
#[tactic(auto, unfolding(crate::specs::Referents::group))]
pub fn read_group(from: &mut NdrReader) -> Result<u32, NdrRefusal>
    ensures { Reads (λ n. n) result from.new (group.reading from.old) }
{
    let relative_id = from.u32()?;
    let _attributes = from.u32()?;
    Ok(relative_id)
}

fn read_groups(alloc: Global, from: &mut NdrReader, count: u32) -> Result<Numbers, LogonFault>
    ensures { Gives (λ v. v) result from.new ((repeated count group).reading from.old) }
{
    let mut groups = Numbers::new(alloc);
    for _ in 0..count {
        let group = read_group(from)?;
        groups.push(group)?;
    }
    Ok(groups)
}

#[tactic(auto, unfolding(crate::specs::Referents::group_array))]
fn read_group_array(alloc: Global, from: &mut NdrReader, count: u32) -> Result<Numbers, LogonFault>
    ensures { Gives (λ v. v) result from.new ((group_array count).reading from.old) }
{
    from.count(count)?;
    read_groups(alloc, from, count)
}

fn read_group_ids(
    alloc: Global,
    from: &mut NdrReader,
    head: ArrayHead,
) -> Result<Numbers, LogonFault>
    ensures { Gives (λ v. v) result from.new ((groups_behind head).reading from.old) }
{
    if !head.there {
        return Ok(Numbers::new(alloc));
    }
    read_group_array(alloc, from, head.count)
}

#[tactic(auto, unfolding(crate::specs::Referents::domain_behind))]
fn read_domain(
    alloc: Global,
    from: &mut NdrReader,
    heads: &DomainHeads,
) -> Result<(Text, Sid), LogonFault>
    ensures { Gives (λ x. x) result from.new ((domain_behind heads.now).reading from.old) }
{
    read_octets(from, heads.logon_server)?;
    let name = read_text(alloc, from, heads.logon_domain_name)?;
    let sid = read_sid(from, 14)?;
    Ok((name, sid))
}

/// Reads what the members point to. A refusal may leave the reader anywhere.
#[tactic(auto, unfolding(crate::specs::Referents::subject_behind))]
pub fn read_subject(
    alloc: Global,
    from: &mut NdrReader,
    members: &Members,
) -> Result<Subject4, LogonFault>
    ensures { Gives (λ s. s) result from.new ((subject_behind members.now).reading from.old) }
{
    let name = read_name(alloc, from, &members.names)?;
    let groups = read_group_ids(alloc, from, members.account.group_ids)?;
    let (domain, domain_sid) = read_domain(alloc, from, &members.domain)?;
    skip_extra(from, &members.extra)?;
    Ok(Subject4 {
        name,
        domain,
        domain_sid,
        number: members.account.user_id,
        control: members.user_account_control,
        groups,
    })
}

#[tactic(auto, unfolding(crate::specs::Referents::name_behind))]
fn put_name(alloc: Global, to: &mut NdrWriter, name: &str) -> Result<(), AllocError>
    requires few { length (utf16le_text name.now) ≤ 65534 }
    ensures { OnOk result (to.new ≡ (name_behind (names_of name.now)).written to.old name.now) }
{
    put_text(alloc, to, name)
}

#[tactic(auto, unfolding(crate::specs::Referents::group))]
fn put_group(to: &mut NdrWriter, relative_id: u32) -> Result<(), AllocError>
    ensures { OnOk result (to.new ≡ group.written to.old relative_id) }
{
    to.u32(relative_id)?;
    to.u32(ATTRIBUTES)
}

fn put_groups(to: &mut NdrWriter, groups: &[u32]) -> Result<(), AllocError>
    ensures { OnOk result (to.new ≡ (repeated (length groups.now) group).written to.old groups.now) }
{
    for number in groups {
        put_group(to, *number)?;
    }
    Ok(())
}

#[tactic(auto, unfolding(crate::specs::Referents::group_array))]
fn put_group_ids(to: &mut NdrWriter, groups: &[u32]) -> Result<(), AllocError>
    requires few { length groups.now ≤ 1024 }
    ensures { OnOk result (to.new ≡ (groups_behind (array_of groups.now)).written to.old groups.now) }
{
    if groups.is_empty() {
        return Ok(());
    }
    to.u32(groups.len() as u32)?;
    put_groups(to, groups)
}

#[tactic(auto, unfolding(crate::specs::Referents::domain_behind))]
fn put_domain(alloc: Global, to: &mut NdrWriter, name: &str, sid: &Sid) -> Result<(), AllocError>
    requires few { length (utf16le_text name.now) ≤ 65534 }
    ensures { OnOk result (to.new ≡ (domain_behind (domain_heads_of name.now)).written to.old (name.now, sid.now)) }
{
    put_text(alloc, to, name)?;
    put_sid(to, sid)
}

/// Writes what the members point to.
#[tactic(auto, unfolding(crate::specs::Referents::subject_behind, crate::specs::Referents::extra_behind, crate::specs::Referents::sid_past))]
pub fn put_subject(alloc: Global, to: &mut NdrWriter, info: &LogonInfo) -> Result<(), AllocError>
    requires name { length (utf16le_text info.now.subject.name) ≤ 65534 }
    requires domain { length (utf16le_text info.now.subject.domain) ≤ 65534 }
    requires few { length info.now.subject.groups ≤ 1024 }
    ensures { OnOk result (to.new ≡ (subject_behind (members_of info.now)).written to.old info.now.subject) }
{
    let subject = &info.subject;
    put_name(alloc, to, subject.name.as_str())?;
    put_group_ids(to, subject.groups.as_slice())?;
    put_domain(alloc, to, subject.domain.as_str(), &subject.domain_sid)
}
