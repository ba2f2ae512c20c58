//! An entry of the list of buffers, PAC_INFO_BUFFER (MS-PAC, section 2.4).

ghost use Rattle.std.specs.Prelude.{◌≡◌, ◌+◌};
ghost use Rattle.pac_buffers.specs.InfoBuffers.{info_buffer, leaves, is_misaligned, meets_list, share_byte};

/// An entry: the buffer's type, how many bytes it has, and where it starts.
#[derive(Clone, Copy, Debug, PartialEq, Eq)]
pub struct InfoBuffer {
    pub kind: u32,
    pub size: u32,
    pub offset: u64,
}

impl InfoBuffer {
    /// The entry of these bytes.
    pub fn read(raw: &[u8; 16]) -> InfoBuffer
        ensures { result ≡ info_buffer raw.now }
    {
        InfoBuffer {
            kind: u32::from_le_bytes([raw[0], raw[1], raw[2], raw[3]]),
            size: u32::from_le_bytes([raw[4], raw[5], raw[6], raw[7]]),
            offset: u64::from_le_bytes([
                raw[8], raw[9], raw[10], raw[11], raw[12], raw[13], raw[14], raw[15],
            ]),
        }
    }

    /// Where it ends.
    pub fn end(self) -> u128
        ensures { result ≡ self.offset + self.size }
    {
        self.offset as u128 + self.size as u128
    }

    /// Whether it leaves `len` bytes.
    pub fn leaves(self, len: usize) -> bool
        ensures { result ≡ leaves len self }
    {
        (len as u128) < self.end()
    }

    /// Whether it does not start at a multiple of 8.
    pub fn is_misaligned(self) -> bool
        ensures { result ≡ is_misaligned self }
    {
        self.offset % 8 != 0
    }

    /// Whether it has a byte among the first `len`.
    pub fn meets_list(self, len: u128) -> bool
        ensures { result ≡ meets_list len self }
    {
        0 < self.size && (self.offset as u128) < len
    }

    /// Whether a byte is in both.
    pub fn shares_byte(self, other: InfoBuffer) -> bool
        ensures { result ≡ share_byte self other }
    {
        0 < self.size
            && 0 < other.size
            && (self.offset as u128) < other.end()
            && (other.offset as u128) < self.end()
    }
}
