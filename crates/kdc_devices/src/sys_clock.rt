//! The clock of the system.
ghost use Rattle.std.specs.Prelude.{None};

use crate::moments::moment_after;
use kb_base::Clock;
use krb_names::Moment;
use std::time::{self, Duration};

/// The system's clock. Before 1970 and where it can't be read it tells the first moment, past the last one the last.
#[derive(Drop)]
pub struct SysClock<'a, R: time::Clock> {
    clock: &'a R,
}

impl<'a, R: time::Clock> SysClock<'a, R> {
    /// This clock.
    pub fn new(clock: &'a R) -> SysClock<'a, R> {
        SysClock { clock }
    }
}

impl<'a, R: time::Clock> Clock for SysClock<'a, R> {
    ghost moments = { λ _. None };

    fn now(&mut self) -> Moment {
        match self.clock.since_1970() {
            Ok(since) => moment_after(since),
            Err(_) => moment_after(Duration::ZERO),
        }
    }
}
