//! What holds of calls, one after the other.

ghost use Rattle.service_end.specs.Runs.{NothingRepeats};

/// No two calls on one [`crate::Seen`] accept an authenticator of the same client and moment, whatever their keys, times and messages.
pub fn nothing_repeats()
    ensures { NothingRepeats }
{}
