//! Security identifiers, packed and in NDR.

ghost use Rattle.std.specs.Prelude.{◌≡◌, ◌≤◌, ◌<◌, ◌^◌, length, IfOk, OnOk};
ghost use Rattle.std.specs.Int.{w32};
ghost use Rattle.ndr_core.specs.Gives.{Reads};
ghost use Rattle.ndr_core.specs.Fields.{number};
ghost use Rattle.ndr_core.specs.Arrays.{repeated};
ghost use Rattle.ndr_values.specs.Sids.{authority, sid_body, packed_sid, rpc_sid};

use krb_names::Sid;
use ndr_core::{NdrCause, NdrReader, NdrRefusal, NdrWriter};
use std::alloc::AllocError;

fn read_authority(from: &mut NdrReader) -> Result<u64, NdrRefusal>
    ensures exact { Reads (λ n. n) result from.new (authority.reading from.old) }
    ensures low { IfOk result (λ n. n < 2 ^ 48) }
{
    let bytes = from.raw(6)?;
    Ok(u64::from_be_bytes([
        0, 0, bytes[0], bytes[1], bytes[2], bytes[3], bytes[4], bytes[5],
    ]))
}

/// As many numbers as there is room for.
fn read_numbers(from: &mut NdrReader, numbers: &mut [u32]) -> Result<(), NdrRefusal>
    ensures { Reads (λ _. numbers.new) result from.new ((repeated (length numbers.old) (number w32)).reading from.old) }
{
    for number in numbers.iter_mut() {
        *number = from.u32()?;
    }
    Ok(())
}

fn read_body(from: &mut NdrReader, count: usize) -> Result<Sid, NdrRefusal>
    requires some { 1 ≤ count }
    requires few { count ≤ 15 }
    ensures { Reads (λ s. s) result from.new ((sid_body count).reading from.old) }
{
    let authority = read_authority(from)?;
    let mut numbers = [0; 15];
    read_numbers(from, &mut numbers[..count])?;
    Ok(Sid::new(authority, &numbers[..count]))
}

/// Reads a packed SID. A refusal may leave the reader anywhere.
pub fn read_packed_sid(from: &mut NdrReader) -> Result<Sid, NdrRefusal>
    ensures exact { Reads (λ s. s) result from.new (packed_sid.reading from.old) }
{
    from.u8_exactly(1, NdrCause::BadCount)?;
    let count = from.u8_within(1, 15, NdrCause::BadCount)?;
    read_body(from, count as usize)
}

/// Reads a SID of at most `most` sub-authorities behind the count of its array. A refusal may leave the reader anywhere.
pub fn read_sid(from: &mut NdrReader, most: u8) -> Result<Sid, NdrRefusal>
    requires { most ≤ 15 }
    ensures exact { Reads (λ s. s) result from.new ((rpc_sid most).reading from.old) }
{
    let count = from.u32_within(1, most as u32, NdrCause::BadCount)?;
    from.u8_exactly(1, NdrCause::BadCount)?;
    from.u8_exactly(count as u8, NdrCause::BadCount)?;
    read_body(from, count as usize)
}

fn put_numbers(to: &mut NdrWriter, numbers: &[u32]) -> Result<(), AllocError>
    ensures ok { OnOk result (to.new ≡ (repeated (length numbers.now) (number w32)).written to.old numbers.now) }
    ensures fits { (repeated (length numbers.now) (number w32)).Fits numbers.now }
{
    for number in numbers {
        to.u32(*number)?;
    }
    Ok(())
}

fn put_body(to: &mut NdrWriter, sid: &Sid) -> Result<(), AllocError>
    ensures ok { OnOk result (to.new ≡ (sid_body (length sid.now.numbers)).written to.old sid.now) }
    ensures fits { OnOk result ((sid_body (length sid.now.numbers)).Fits sid.now) }
{
    let bytes = sid.authority().to_be_bytes();
    to.raw(&bytes[2..])?;
    put_numbers(to, sid.numbers())
}

/// Writes a packed SID.
pub fn put_packed_sid(to: &mut NdrWriter, sid: &Sid) -> Result<(), AllocError>
    ensures ok { OnOk result (to.new ≡ packed_sid.written to.old sid.now) }
    ensures fits { OnOk result (packed_sid.Fits sid.now) }
{
    to.u8(1)?;
    to.u8(sid.numbers().len() as u8)?;
    put_body(to, sid)
}

/// Writes a SID behind the count of its array.
pub fn put_sid(to: &mut NdrWriter, sid: &Sid) -> Result<(), AllocError>
    ensures ok { OnOk result (to.new ≡ (rpc_sid 15).written to.old sid.now) }
{
    let count = sid.numbers().len();
    to.u32(count as u32)?;
    to.u8(1)?;
    to.u8(count as u8)?;
    put_body(to, sid)
}
