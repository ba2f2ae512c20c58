//! Flags of tickets and options of requests, RFC 4120, section 5.2.8: bit 0 is the highest of 32.
ghost use Rattle.std.specs.Prelude.{◌≡◌, ◌<◌};
ghost use Rattle.kdc_records.specs.Bits.{bit_if, has_bit};

/// Whether bit `n` is set.
pub fn has_bit(bits: u32, n: u32) -> bool
    requires { n < 32 }
    ensures { result ≡ has_bit n bits }
{
    (bits >> (31 - n)) & 1 == 1
}

/// Bit `n` alone, where it is to be set, and no bit otherwise.
pub fn bit_if(n: u32, set: bool) -> u32
    requires { n < 32 }
    ensures { result ≡ bit_if n set }
{
    if set { 1 << (31 - n) } else { 0 }
}
