//! What holds of times in KerberosTime, RFC 4120, section 5.2.3.
ghost use Rattle.std.specs.Prelude.{◌≡◌, ◌≤◌, ℕ, Ok};
ghost use Rattle.krb_names.specs.Times.{ktime_reading, ktime_text};

/// Each second from 1970 to 9999 is written as a text that reads as it.
pub fn written_times_read()
    ensures { (seconds : ℕ) → seconds ≤ 253402300799 → ktime_reading (ktime_text seconds) ≡ Ok seconds }
{}
