//! A header as the rules see it (RFC 4120, sections 3.2.3 and 3.3.3).
ghost use Rattle.std.specs.Prelude.{◌≡◌};
ghost use Rattle.std.specs.Option.{option_copied};
ghost use Rattle.krb_messages.specs.Authenticator.{authenticator};
ghost use Rattle.krb_names.specs.Moments.{in_micros};
ghost use Rattle.s4u_rules.specs.Headers.{Shown};
ghost use Rattle.s4u_rules.specs.HeaderViews.{header_seen};
ghost use Rattle.tgs_requests.specs.Headers.{answering_key, IsHeader, made_at, record_in, shown_header, starts_at};

use crate::header::Header;
use kdc_records::{TicketRec, has_bit, ticket_flag};
use krb_messages::Authenticator;
use krb_names::{KTime, Key, Moment};
use krb_tickets::EncTicketPart;
use s4u_rules::HeaderView;

/// When an authenticator was made.
fn made_at(auth: &Authenticator) -> Moment
    requires { authenticator.Fits auth.now }
    ensures { in_micros result ≡ made_at auth.now }
{
    Moment {
        secs: auth.ctime.secs(),
        micros: auth.cusec.unsigned_abs(),
    }
}

/// When a ticket starts: when it says, else when its client was authenticated.
fn starts_at(part: &EncTicketPart) -> KTime
    ensures { result ≡ starts_at part.now }
{
    part.start.unwrap_or(part.auth)
}

/// The record, where the client information agrees.
fn record_in(header: &Header) -> Option<&TicketRec>
    ensures { option_copied result ≡ record_in header.now }
{
    match &header.certified {
        Some(shown) if shown.agrees => Some(&shown.rec),
        _ => None,
    }
}

/// A header that was read, as the rules see it.
pub fn header_view(header: &Header) -> HeaderView<'_>
    requires { IsHeader header.now }
    ensures { header_seen result ≡ Shown (shown_header header.now) }
{
    let part = &header.opened.part;
    HeaderView::Shown {
        stamp: made_at(&header.auth),
        start: starts_at(part),
        end: part.end,
        invalid: has_bit(part.flags, ticket_flag::INVALID),
        rec: record_in(header),
    }
}

/// The key that seals the reply and the checksums of S4U2self: the subkey, else the session key.
pub fn answering_key(header: &Header) -> &Key
    ensures { result.now ≡ answering_key header.now }
{
    match &header.auth.subkey {
        Some(key) => key,
        None => &header.opened.part.key,
    }
}
