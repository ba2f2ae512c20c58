//! KerberosTime, RFC 4120, section 5.2.3.
ghost use Rattle.std.specs.Prelude.{◌≡◌, ◌≤◌};

use std::marker::Model;

/// A time in whole seconds since 1970, up to 9999-12-31T23:59:59, which contracts see as that number.
#[derive(Clone, Copy, Debug, PartialEq, Eq, PartialOrd, Ord)]
pub struct KTime(u64);

impl Model for KTime {
    ghost use Rattle.std.specs.Prelude.{ℕ, ◌≤◌};

    ghost Value = { ℕ };

    ghost view = { λ time. time.0 };

    ghost invariant = { λ time. time.0 ≤ 253402300799 };

    ghost inverse = { λ seconds. record { 0 = seconds } };
}

impl KTime {
    /// The time after so many seconds since 1970, at most 253,402,300,799.
    pub fn new(secs: u64) -> KTime
        requires { secs ≤ 253402300799 }
        ensures { result ≡ secs }
    {
        KTime(secs)
    }

    /// Its seconds since 1970, at most 253,402,300,799.
    pub fn secs(self) -> u64
        ensures value { result ≡ self }
        ensures found { self ≤ 253402300799 }
    {
        self.0
    }
}
