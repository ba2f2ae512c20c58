//! The lines of a file that follow a place in it.
ghost use Rattle.std.specs.Prelude.{◌≡◌, ◌≤◌, IfOk, IfSome, Some, length, option_map, take};
ghost use Rattle.kdc_devices.specs.Batches.{EndsLines, HasWholeLines, IsBatchOf};

use kb_base::DeviceFault;
use std::alloc::{AllocError, Global};
use std::io::{Read, Seek, SeekFrom};

/// The most bytes of a batch.
const MAX_BATCH: usize = 1_048_576;

/// The whole lines among the next 1,048,576 bytes from this place on. A line that is longer than these is a failure, as
/// is one of the file.
pub(crate) fn read_batch<F: Read + Seek>(
    alloc: Global,
    file: &mut F,
    at: u64,
) -> Result<Vec<u8>, DeviceFault>
    ensures { IfOk result (λ batch. HasWholeLines batch.items) }
{
    match file.seek(SeekFrom::Start(at)) {
        Ok(_) => read_lines(alloc, file),
        Err(_) => Err(DeviceFault::Failed),
    }
}

/// The same of the next 1,048,576 bytes of a reader.
fn read_lines<F: Read>(alloc: Global, file: &mut F) -> Result<Vec<u8>, DeviceFault>
    ensures whole { IfOk result (λ batch. HasWholeLines batch.items) }
    ensures value { IfOk result (λ batch. IfSome (F.remaining file.old) (λ left. IsBatchOf (take 1048576 left) (Some batch.items))) }
{
    let next = read_next(alloc, file)?;
    match lines_of(next) {
        Some(batch) => Ok(batch),
        None => Err(DeviceFault::Failed),
    }
}

/// The next 1,048,576 bytes, or all where there are fewer.
fn read_next<F: Read>(alloc: Global, file: &mut F) -> Result<Vec<u8>, DeviceFault>
    ensures within { IfOk result (λ next. length next.items ≤ 1048576) }
    ensures value { IfOk result (λ next. IfSome (F.remaining file.old) (λ left. next.items ≡ take 1048576 left)) }
{
    let mut next = Vec::new(alloc);
    let mut buf = [0u8; 4096];
    while next.len() < MAX_BATCH {
        let room = buf.len().min(MAX_BATCH - next.len());
        match file.read(&mut buf[..room]) {
            Ok(0) => return Ok(next),
            Ok(count) => next.extend_from_slice(&buf[..count])?,
            Err(_) => return Err(DeviceFault::Failed),
        }
    }
    Ok(next)
}

/// The lines that end in these bytes; none where a line is longer than a batch.
fn lines_of(next: Vec<u8>) -> Option<Vec<u8>>
    requires { length next.items ≤ 1048576 }
    ensures { IsBatchOf next.items (option_map (λ batch. batch.items) result) }
{
    let mut lines = next;
    let count = ended_length(lines.as_slice());
    if count == 0 && lines.len() == MAX_BATCH {
        return None;
    }
    lines.truncate(count);
    Some(lines)
}

/// How many bytes the lines have that end in these bytes.
fn ended_length(bytes: &[u8]) -> usize
    ensures { EndsLines bytes.now result }
{
    let mut count = bytes.len();
    while count > 0 && bytes[count - 1] != b'\n' {
        count -= 1;
    }
    count
}
