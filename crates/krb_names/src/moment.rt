//! Moments of a clock.
ghost use Rattle.std.specs.Prelude.{◌≤◌, ◌<◌};

/// A moment: seconds since 1970, at most 250,000,000,000, and the microseconds after them, below 1,000,000.
#[derive(Clone, Copy, Debug, PartialEq, Eq)]
pub struct Moment {
    pub secs: u64,
    pub micros: u32,
    pub ghost in_range: { secs ≤ 250000000000 },
    pub ghost in_second: { micros < 1000000 },
}
