//! Types that are listed again. Of a long list they are found in ascending order, without comparing each with each.

ghost use Rattle.std.specs.Prelude.{◌≡◌, ◌<◌, ◌≤◌, ◌^◌, ◌&&◌, [], length, nat_eq, nat_lt, All};
ghost use Rattle.std.specs.List.{list_any};
ghost use Rattle.std.specs.List.Sorted.{IsPermutation};
ghost use Rattle.pac_buffers.specs.Container.{first_twice};
ghost use Rattle.pac_buffers.specs.Kinds.{numbered, IsAscending};

use crate::info_buffer::InfoBuffer;
use crate::list::has_kind;

/// How many entries are put in order at most. 131,072 bytes have fewer.
const MOST: usize = 8192;

/// How many entries are compared each with each at most where they could be put in order: a PAC has fewer, and room for the
/// longest list costs more than that.
const FEW: usize = 32;

/// Writes the type and the number of each entry.
fn write_kinds(kinds: &mut [(u32, u32)], list: &[[u8; 16]])
    requires same { length kinds.old ≡ length list.now }
    requires few { length list.now ≤ 8192 }
    ensures { kinds.new ≡ numbered 0 list.now }
{
    for i in 0..list.len() {
        kinds[i] = (InfoBuffer::read(&list[i]).kind, i as u32);
    }
}

/// Puts types in ascending order.
fn sort_kinds(kinds: &mut [(u32, u32)])
    requires { All (λ x. x.1 < 2 ^ 32) kinds.old }
    ensures ok { IsPermutation kinds.old kinds.new }
    ensures ascending { IsAscending kinds.new }
{
    kinds.sort_unstable();
}

/// Whether an entry before this number has this type.
fn is_before(kinds: &[(u32, u32)], kind: u32, number: u32) -> bool
    requires { IsAscending kinds.now }
    ensures { result ≡ list_any (λ x. nat_eq x.0 kind && nat_lt x.1 number) kinds.now }
{
    let first = kinds.partition_point(|x| x.0 < kind);
    match kinds.get(first) {
        Some(x) => x.0 == kind && x.1 < number,
        None => false,
    }
}

fn first_of_ascending(kinds: &[(u32, u32)], list: &[[u8; 16]]) -> Option<u32>
    requires few { length list.now ≤ 8192 }
    requires same { IsPermutation (numbered 0 list.now) kinds.now }
    requires ascending { IsAscending kinds.now }
    ensures { result ≡ first_twice [] list.now }
{
    for i in 0..list.len() {
        let kind = InfoBuffer::read(&list[i]).kind;
        if is_before(kinds, kind, i as u32) {
            return Some(kind);
        }
    }
    None
}

fn first_in_order(list: &[[u8; 16]]) -> Option<u32>
    requires { length list.now ≤ MOST }
    ensures { result ≡ first_twice [] list.now }
{
    let mut room = [(0, 0); MOST];
    let kinds = &mut room[..list.len()];
    write_kinds(kinds, list);
    sort_kinds(kinds);
    first_of_ascending(kinds, list)
}

fn first_by_pairs(list: &[[u8; 16]]) -> Option<u32>
    ensures { result ≡ first_twice [] list.now }
{
    for i in 0..list.len() {
        let kind = InfoBuffer::read(&list[i]).kind;
        if has_kind(&list[..i], kind) {
            return Some(kind);
        }
    }
    None
}

/// The first type that is listed again.
pub fn first_twice(list: &[[u8; 16]]) -> Option<u32>
    ensures { result ≡ first_twice [] list.now }
{
    if FEW < list.len() && list.len() <= MOST {
        first_in_order(list)
    } else {
        first_by_pairs(list)
    }
}
