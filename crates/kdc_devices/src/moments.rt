//! Times as moments.
ghost use Rattle.std.specs.Prelude.{◌≡◌, ◌+◌, ◌*◌, ◌/◌, min};
ghost use Rattle.std.specs.Duration.{as_nanos};

use krb_names::Moment;
use std::time::Duration;

/// The seconds of the last moment.
const LAST_SECOND: u64 = 250_000_000_000;

/// The moment at this time after 1970, without its parts of a microsecond; the last one where the time is later.
pub(crate) fn moment_after(since: Duration) -> Moment
    ensures { result.secs * 1000000 + result.micros ≡ min (as_nanos since / 1000) 250000000000999999 }
{
    let secs = since.as_secs();
    if secs > LAST_SECOND {
        return Moment {
            secs: LAST_SECOND,
            micros: 999_999,
        };
    }
    Moment {
        secs,
        micros: since.subsec_micros(),
    }
}
