//! The key schedule (FIPS 197, section 5.2).

ghost use Rattle.std.specs.Prelude.{◌≡◌, ◌⊎◌, ◌/◌};
ghost use Rattle.aes_core.specs.KeyExpansion.{key_expansion};

use crate::key_expansion::{backward, expand};
use std::marker::Model;

/// The round keys of a key, for both directions. Contracts see it as the list of the words of the
/// key expansion, each as its four bytes.
#[derive(Drop)]
pub struct KeySchedule {
    pub(crate) rounds: usize,
    pub(crate) forward: [u32; 60],
    // The keys of the inverse cipher, in its order.
    pub(crate) backward: [u32; 60],
}

impl Model for KeySchedule {
    ghost use Rattle.std.specs.Prelude.{ℕ, List};

    ghost Value = { List (List ℕ) };

    ghost use Rattle.aes_core.specs.Schedule.{words_of, IsSchedule};

    ghost view = { words_of };

    ghost invariant = { IsSchedule };
}

impl KeySchedule {
    /// The schedule of a key of 128 bits, the first 16 bytes of `raw`, or of 256.
    pub fn new(etype_bits: u16, raw: &[u8; 32]) -> KeySchedule
        requires { (etype_bits ≡ 128) ⊎ (etype_bits ≡ 256) }
        ensures { result ≡ key_expansion (etype_bits / 32) raw.now }
    {
        let nk = (etype_bits / 32) as usize;
        let forward = expand(nk, raw);
        let backward = backward(nk + 6, &forward);
        KeySchedule {
            rounds: nk + 6,
            forward,
            backward,
        }
    }
}
