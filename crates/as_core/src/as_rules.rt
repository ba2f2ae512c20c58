//! The rules of an AS-REQ, each by its name (RFC 4120, section 3.1.3).
ghost use Rattle.std.specs.Prelude.{◌≡◌};
ghost use Rattle.as_core.specs.AsRules.{client_is_enabled, is_stamped, key_type_is_listed, may_be_delegated, options_are_plain, server_is_krbtgt, stamp_is_fresh, stamp_is_read, stamp_is_there};
ghost use Rattle.as_core.specs.Stamps.{stamp_seen};

use crate::stamp::StampView;
use dir_core::Account;
use kdc_records::{Aim, Wish, are_clear, kdc_option};
use krb_names::Moment;

/// A2: the client's account is not disabled.
pub(crate) fn client_is_enabled(account: &Account) -> bool
    ensures { result ≡ client_is_enabled account.now }
{
    !account.disabled
}

/// A3: the server is this realm's krbtgt.
pub(crate) fn server_is_krbtgt(aim: Aim) -> bool
    ensures { result ≡ server_is_krbtgt aim }
{
    matches!(aim, Aim::Krbtgt)
}

/// A5: forwarded, proxy, cname-in-addl-tkt, enc-tkt-in-skey, renew and validate are not asked for.
pub(crate) fn options_are_plain(wish: &Wish) -> bool
    ensures { result ≡ options_are_plain wish.now }
{
    are_clear(
        &[
            kdc_option::FORWARDED,
            kdc_option::PROXY,
            kdc_option::CNAME_IN_ADDL_TKT,
            kdc_option::ENC_TKT_IN_SKEY,
            kdc_option::RENEW,
            kdc_option::VALIDATE,
        ],
        wish.options,
    )
}

/// A6: the etype list has the type of the client's key.
pub(crate) fn key_type_is_listed(wish: &Wish, account: &Account) -> bool
    ensures { result ≡ key_type_is_listed wish.now account.now }
{
    let number = account.key.key.etype.number();
    wish.etypes.as_slice().iter().any(|etype| *etype == number)
}

/// A7: an account that needs pre-authentication sends a timestamp.
pub(crate) fn stamp_is_there(stamp: StampView, account: &Account) -> bool
    ensures { result ≡ stamp_is_there (stamp_seen stamp) account.now }
{
    match stamp {
        StampView::Absent => !account.preauth,
        StampView::Unread | StampView::At(_) => true,
    }
}

/// A8: a timestamp opens with the client's key and reads.
pub(crate) fn stamp_is_read(stamp: StampView) -> bool
    ensures { result ≡ stamp_is_read (stamp_seen stamp) }
{
    !matches!(stamp, StampView::Unread)
}

/// A9: a timestamp is within 300 seconds of now.
pub(crate) fn stamp_is_fresh(now: Moment, stamp: StampView) -> bool
    ensures { result ≡ stamp_is_fresh now (stamp_seen stamp) }
{
    match stamp {
        StampView::Absent | StampView::Unread => true,
        StampView::At(moment) => moment.is_within_skew(now),
    }
}

/// Whether a timestamp was opened.
pub(crate) fn is_stamped(stamp: StampView) -> bool
    ensures { result ≡ is_stamped (stamp_seen stamp) }
{
    matches!(stamp, StampView::At(_))
}

/// Whether the account is not marked DelegationNotAllowed.
pub(crate) fn may_be_delegated(account: &Account) -> bool
    ensures { result ≡ may_be_delegated account.now }
{
    !account.not_delegated
}
