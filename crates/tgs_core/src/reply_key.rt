//! How the part of a reply is sealed (RFC 4120, section 7.5.1).
ghost use Rattle.std.specs.Prelude.{◌≡◌};
ghost use Rattle.std.specs.Option.{option_copied};
ghost use Rattle.tgs_core.specs.GrantViews.{grounds_seen};
ghost use Rattle.tgs_core.specs.Replies.{part_tag, reply_key, reply_type, tgs_key};

use crate::grounds::{GroundsView, PresentedView};
use krb_names::Key;

/// The tags of EncASRepPart and EncTGSRepPart (RFC 4120, section 5.4.2).
const AS_REP_PART: u8 = 0x79;

const TGS_REP_PART: u8 = 0x7a;

/// The msg-types of an AS-REP and a TGS-REP (RFC 4120, section 7.5.7).
const KRB_AS_REP: i32 = 11;

const KRB_TGS_REP: i32 = 13;

/// The key usages of the part of an AS-REP, and of a TGS-REP under the session key and under the subkey (RFC 4120, section
/// 7.5.1).
const AS_REP_USAGE: u32 = 3;

const TGS_REP_SESSION_USAGE: u32 = 8;

const TGS_REP_SUBKEY_USAGE: u32 = 9;

/// How the part of a reply is sealed.
#[derive(Drop)]
pub(crate) struct ReplyKey {
    pub(crate) key: Key,
    pub(crate) usage: u32,
    /// The version that is told.
    pub(crate) version: Option<u32>,
}

/// That of a TGS-REQ: the subkey, or else the header's session key.
pub(crate) fn tgs_key(shown: &PresentedView) -> ReplyKey
    ensures { result ≡ tgs_key shown.now.part.now.key shown.now.subkey }
{
    match shown.subkey {
        Some(key) => ReplyKey {
            key,
            usage: TGS_REP_SUBKEY_USAGE,
            version: None,
        },
        None => ReplyKey {
            key: shown.part.key,
            usage: TGS_REP_SESSION_USAGE,
            version: None,
        },
    }
}

impl<'a> GroundsView<'a> {
    /// The key of the account that asks, or a key that the header brings.
    pub(crate) fn reply_key(&self) -> ReplyKey
        ensures { result ≡ reply_key (grounds_seen self.now) }
    {
        match self {
            GroundsView::ByAccount(account) => ReplyKey {
                key: account.key.key,
                usage: AS_REP_USAGE,
                version: Some(account.key.version),
            },
            GroundsView::ByHeader(shown)
            | GroundsView::ForUser(shown, _, _)
            | GroundsView::ForHeadersUser(shown, _)
            | GroundsView::ByEvidence(shown, _) => tgs_key(shown),
        }
    }

    /// The tag of what is sealed.
    pub(crate) fn part_tag(&self) -> u8
        ensures { result ≡ part_tag (grounds_seen self.now) }
    {
        match self {
            GroundsView::ByAccount(_) => AS_REP_PART,
            _ => TGS_REP_PART,
        }
    }

    /// The msg-type of the reply.
    pub(crate) fn reply_type(&self) -> i32
        ensures { result ≡ reply_type (grounds_seen self.now) }
    {
        match self {
            GroundsView::ByAccount(_) => KRB_AS_REP,
            _ => KRB_TGS_REP,
        }
    }
}
