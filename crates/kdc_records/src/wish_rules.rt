//! What a request asks for, by itself and at a time (RFC 4120, sections 3.1.3 and 3.3.3).
ghost use Rattle.std.specs.Prelude.{◌≡◌, ◌≤◌, ◌<◌, All};
ghost use Rattle.kdc_records.specs.Wishes.{are_clear, end_by, end_is_later, is_by, session_type, start_is_now};

use crate::bits::has_bit;
use crate::kdc_option;
use crate::wish::Wish;
use krb_names::{Etype, KTime, Moment};

/// How long after now a ticket may be asked to start, in seconds.
const LATEST_START: u64 = 300;

/// Whether these options are clear.
pub fn are_clear(numbers: &[u32], options: u32) -> bool
    requires { All (λ n. n < 32) numbers.now }
    ensures { result ≡ are_clear numbers.now options }
{
    numbers.iter().all(|n| !has_bit(options, *n))
}

/// Whether no later time is asked for.
fn is_by(latest: u64, from: Option<KTime>) -> bool
    ensures { result ≡ is_by latest from }
{
    match from {
        None => true,
        Some(from) => from.secs() <= latest,
    }
}

/// Whether neither allow-postdate nor postdated is asked for, and the start at most 300 seconds after now.
pub fn start_is_now(now: Moment, wish: &Wish) -> bool
    ensures { result ≡ start_is_now now wish.now }
{
    are_clear(
        &[kdc_option::ALLOW_POSTDATE, kdc_option::POSTDATED],
        wish.options,
    ) && is_by(now.secs + LATEST_START, wish.from)
}

/// The first type of the list that is 17 or 18; type 18 where it has none, which the rules refuse.
pub fn session_type(etypes: &[i32]) -> Etype
    ensures { result ≡ session_type etypes.now }
{
    for number in etypes {
        if let Some(etype) = Etype::from_number(*number) {
            return etype;
        }
    }
    Etype::Aes256
}

/// The earlier of the end that is asked for and another one; an end of 1970 is no bound.
pub fn end_by(till: KTime, latest: KTime) -> KTime
    ensures { result ≡ end_by till latest }
{
    if till.secs() == 0 || latest.secs() < till.secs() {
        latest
    } else {
        till
    }
}

/// Whether a ticket that ends then is valid at all: the end is later than now.
pub fn end_is_later(now: Moment, end: KTime) -> bool
    ensures { result ≡ end_is_later now end }
{
    now.secs < end.secs()
}
