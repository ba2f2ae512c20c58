//! How far apart two moments are.
ghost use Rattle.std.specs.Prelude.{◌≡◌};
ghost use Rattle.krb_names.specs.Moments.{are_within_skew, in_micros};

use crate::moment::Moment;

/// The clock skew that is allowed, 300 seconds, in microseconds.
const SKEW: u64 = 300_000_000;

impl Moment {
    /// Its microseconds since 1970.
    pub fn in_micros(self) -> u64
        ensures { result ≡ in_micros self }
    {
        self.secs * 1_000_000 + u64::from(self.micros)
    }

    /// Whether the two are at most 300 seconds apart.
    pub fn is_within_skew(self, other: Moment) -> bool
        ensures { result ≡ are_within_skew self other }
    {
        self.in_micros().abs_diff(other.in_micros()) <= SKEW
    }
}
