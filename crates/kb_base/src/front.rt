//! Reading the front of bytes in memory, and the calls that are to fail.
ghost use Rattle.std.specs.Prelude.{◌≡◌, ◌++◌, min, length, take, drop};
ghost use Rattle.kb_base.specs.Counts.{is_listed};

/// Copies as many of the bytes as the buffer takes, and tells how many.
pub(crate) fn read_front(bytes: &[u8], buf: &mut [u8]) -> usize
    ensures count { result ≡ min (length bytes.now) (length buf.old) }
    ensures copied { take result buf.new ≡ take result bytes.now }
{
    let count = bytes.len().min(buf.len());
    buf[..count].copy_from_slice(&bytes[..count]);
    count
}

/// Whether the call with this number, counted from 1, is one of those that fail.
pub(crate) fn is_listed(fails: &[u32], call: u64) -> bool
    ensures { result ≡ is_listed fails.now call }
{
    fails.iter().any(|listed| u64::from(*listed) == call)
}
