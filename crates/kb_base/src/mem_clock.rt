//! A clock in memory.
ghost use Rattle.std.specs.Prelude.{◌≡◌, ◌<◌, vec_len, Some};

use crate::clock::Clock;
use krb_names::Moment;
use std::alloc::Global;
use std::marker::Model;

/// Moments in memory, told one after the other. The last one repeats.
#[derive(Debug, Drop)]
pub struct MemClock {
    moments: Vec<Moment>,
    at: usize,
}

impl Model for MemClock {
    ghost use Rattle.std.specs.Prelude.{List, drop, length, ◌<◌};
    ghost use Rattle.krb_names.specs.declared.moment.Moment.{Moment};

    ghost Value = { List Moment };

    ghost view = { λ s. drop s.at s.moments.items };

    ghost invariant = { λ s. s.at < length s.moments.items };
}

impl MemClock {
    /// These moments, of which there is one at least.
    pub fn new(_alloc: Global, moments: Vec<Moment>) -> MemClock
        requires { 0 < vec_len moments }
        ensures { result ≡ moments.items }
    {
        MemClock { moments, at: 0 }
    }
}

impl Clock for MemClock {
    ghost moments = { λ s. Some s };

    fn now(&mut self) -> Moment {
        let now = self.moments[self.at];
        if self.at + 1 < self.moments.len() {
            self.at += 1;
        }
        now
    }
}
