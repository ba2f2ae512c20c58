//! When a service accepts a ticket and its authenticator (RFC 4120, section 3.2.3).

ghost use Rattle.std.specs.Prelude.{◌≡◌, ◌≤◌, ◌+◌, IfOk};
ghost use Rattle.krb_messages.specs.Authenticator.{authenticator};
ghost use Rattle.krb_names.specs.Moments.{in_micros};
ghost use Rattle.tgs_requests.specs.Headers.{made_at, starts_at};
ghost use Rattle.service_end.specs.Times.{has_begun, is_fresh, is_timely, lasts};

use crate::refusal::{AcceptRule, require};
use kdc_records::{has_bit, ticket_flag};
use krb_messages::Authenticator;
use krb_names::{KTime, Moment};
use krb_tickets::EncTicketPart;

/// A second, in microseconds.
const SECOND: u64 = 1_000_000;

/// How long before its start a ticket is accepted, in microseconds.
const EARLY: u64 = 300_000_000;

/// When an authenticator was made.
pub(crate) fn made_at(auth: &Authenticator) -> Moment
    requires { authenticator.Fits auth.now }
    ensures { in_micros result ≡ made_at auth.now }
{
    Moment {
        secs: auth.ctime.secs(),
        micros: auth.cusec.unsigned_abs(),
    }
}

/// When a ticket starts: when it says, else when its client was authenticated.
fn starts_at(part: &EncTicketPart) -> KTime
    ensures { result ≡ starts_at part.now }
{
    part.start.unwrap_or(part.auth)
}

/// Skew: the authenticator was made within 300 seconds of the moment.
fn is_fresh(moment: Moment, at: Moment) -> bool
    ensures { result ≡ is_fresh (in_micros moment) (in_micros at) }
{
    at.is_within_skew(moment)
}

/// NotYet: the ticket starts at most 300 seconds after the moment, and is not invalid.
fn has_begun(moment: Moment, part: &EncTicketPart) -> bool
    ensures { result ≡ has_begun (in_micros moment) part.now }
{
    starts_at(part).secs() * SECOND <= moment.in_micros() + EARLY
        && !has_bit(part.flags, ticket_flag::INVALID)
}

/// Ended: the moment is earlier than its end.
fn lasts(moment: Moment, part: &EncTicketPart) -> bool
    ensures { result ≡ lasts (in_micros moment) part.now }
{
    moment.in_micros() < part.end.secs() * SECOND
}

/// The first rule of times that fails, of a ticket with an authenticator that was made at this moment.
pub(crate) fn check_times(
    moment: Moment,
    at: Moment,
    part: &EncTicketPart,
) -> Result<(), AcceptRule>
    ensures exact { result ≡ is_timely (in_micros moment) (in_micros at) part.now }
    ensures within { IfOk result (λ done. in_micros moment ≤ in_micros at + 300000000) }
{
    require(AcceptRule::Skew, is_fresh(moment, at))?;
    require(AcceptRule::NotYet, has_begun(moment, part))?;
    require(AcceptRule::Ended, lasts(moment, part))
}
