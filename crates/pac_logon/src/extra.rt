//! What the last members point to: extra SIDs and resource groups. They are read past.

ghost use Rattle.std.specs.Prelude.{◌≡◌, ◌≤◌, length, replicate, IfOk};
ghost use Rattle.ndr_core.specs.Gives.{Reads};
ghost use Rattle.ndr_core.specs.Layout.{pointed};
ghost use Rattle.ndr_core.specs.Arrays.{count, repeated, each};
ghost use Rattle.pac_logon.specs.Referents.{skipped, group, sid_past, sid_pointer, listed_sids, sid_array, skipped_groups, extra_behind};

use crate::members::{ArrayHead, ExtraHeads};
use crate::referents::read_group;
use ndr_core::{NdrReader, NdrRefusal};
use ndr_values::read_sid;

#[tactic(auto, unfolding(crate::specs::Referents::sid_pointer))]
fn read_sid_pointer(from: &mut NdrReader) -> Result<bool, NdrRefusal>
    ensures { Reads (λ b. b) result from.new (sid_pointer.reading from.old) }
{
    let there = from.pointer()?;
    let _attributes = from.u32()?;
    Ok(there)
}

/// As many pointers as there is room for.
fn read_sid_pointers(from: &mut NdrReader, pointers: &mut [bool]) -> Result<(), NdrRefusal>
    ensures { Reads (λ _. pointers.new) result from.new ((repeated (length pointers.old) sid_pointer).reading from.old) }
{
    for there in pointers.iter_mut() {
        *there = read_sid_pointer(from)?;
    }
    Ok(())
}

#[tactic(auto, unfolding(crate::specs::Referents::sid_past))]
fn skip_sid(from: &mut NdrReader, there: bool) -> Result<(), NdrRefusal>
    ensures { Reads (λ x. x) result from.new ((sid_past there).reading from.old) }
{
    if there {
        read_sid(from, 15)?;
    }
    Ok(())
}

fn skip_sids(from: &mut NdrReader, pointers: &[bool]) -> Result<(), NdrRefusal>
    ensures { Reads (λ x. x) result from.new ((skipped (each sid_past pointers.now) (replicate (length pointers.now) tt)).reading from.old) }
{
    for there in pointers {
        skip_sid(from, *there)?;
    }
    Ok(())
}

/// As many SIDs as there is room for pointers.
#[tactic(auto, unfolding(crate::specs::Referents::listed_sids))]
fn skip_listed_sids(from: &mut NdrReader, room: &mut [bool]) -> Result<(), NdrRefusal>
    ensures { Reads (λ x. x) result from.new ((listed_sids (length room.old)).reading from.old) }
{
    read_sid_pointers(from, room)?;
    skip_sids(from, room)
}

#[tactic(auto, using(crate::proofs::Loops::room_length))]
fn skip_few_sids(from: &mut NdrReader, count: u32) -> Result<(), NdrRefusal>
    requires { count ≤ 1024 }
    ensures { Reads (λ x. x) result from.new ((listed_sids count).reading from.old) }
{
    let mut room = [false; 1024];
    skip_listed_sids(from, &mut room[..count as usize])
}

fn read_count(from: &mut NdrReader, said: u32) -> Result<(), NdrRefusal>
    ensures exact { Reads (λ _. said) result from.new ((count said).reading from.old) }
    ensures few { IfOk result (λ _. said ≤ 1024) }
{
    from.count(said)
}

#[tactic(auto, unfolding(crate::specs::Referents::sid_array))]
fn skip_sid_array(from: &mut NdrReader, count: u32) -> Result<(), NdrRefusal>
    ensures { Reads (λ x. x) result from.new ((sid_array count).reading from.old) }
{
    read_count(from, count)?;
    skip_few_sids(from, count)
}

fn skip_extra_sids(from: &mut NdrReader, head: ArrayHead) -> Result<(), NdrRefusal>
    ensures { Reads (λ x. x) result from.new ((pointed head.there (sid_array head.count) tt).reading from.old) }
{
    if !head.there {
        return Ok(());
    }
    skip_sid_array(from, head.count)
}

fn skip_groups(from: &mut NdrReader, count: u32) -> Result<(), NdrRefusal>
    ensures { Reads (λ x. x) result from.new ((skipped (repeated count group) (replicate count 0)).reading from.old) }
{
    for _ in 0..count {
        read_group(from)?;
    }
    Ok(())
}

#[tactic(auto, unfolding(crate::specs::Referents::skipped_groups))]
fn skip_group_array(from: &mut NdrReader, count: u32) -> Result<(), NdrRefusal>
    ensures { Reads (λ x. x) result from.new ((skipped_groups count).reading from.old) }
{
    from.count(count)?;
    skip_groups(from, count)
}

fn skip_resource_groups(from: &mut NdrReader, head: ArrayHead) -> Result<(), NdrRefusal>
    ensures { Reads (λ x. x) result from.new ((pointed head.there (skipped_groups head.count) tt).reading from.old) }
{
    if !head.there {
        return Ok(());
    }
    skip_group_array(from, head.count)
}

/// Reads past what the last members point to. A refusal may leave the reader anywhere.
#[tactic(auto, unfolding(crate::specs::Referents::extra_behind))]
pub fn skip_extra(from: &mut NdrReader, heads: &ExtraHeads) -> Result<(), NdrRefusal>
    ensures { Reads (λ x. x) result from.new ((extra_behind heads.now).reading from.old) }
{
    skip_extra_sids(from, heads.extra_sids)?;
    skip_sid(from, heads.resource_group_domain_sid)?;
    skip_resource_groups(from, heads.resource_group_ids)
}
