//! Why a service accepts no AP-REQ.

ghost use Rattle.std.specs.Prelude.{◌≡◌, if◌then◌else◌};
ghost use Rattle.service_end.specs.Codes.{code_of};

use crate::seen::SeenEntry;
use kdc_records::error_code;
use std::alloc::AllocError;

/// KRB_AP_ERR_REPEAT (RFC 4120, section 7.5.9).
const KRB_AP_ERR_REPEAT: i32 = 34;

/// The first rule that fails, in the order in which they are tried; or memory is wanted.
#[derive(Debug, Drop)]
pub enum AcceptRule {
    /// The bytes are no AP-REQ; so many bytes stand before the first fault.
    Malformed(u32),
    /// The ticket is of another realm than the service.
    NotUs,
    /// The ticket is sealed with a key of another version or type.
    Version,
    /// The ticket or the authenticator does not open, or what was sealed does not read.
    Integrity,
    /// The authenticator's client is not the ticket's.
    Match,
    /// The authenticator was made more than 300 seconds before or after the moment.
    Skew,
    /// The ticket starts more than 300 seconds after the moment, or is invalid.
    NotYet,
    /// The ticket has ended.
    Ended,
    /// The ticket's PAC does not read, or its server signature is wrong.
    Signature,
    /// The same client's authenticator of the same moment was accepted before, and is kept as this entry.
    Repeat(SeenEntry),
    /// 10,000 entries are kept of the last 300 seconds.
    Full,
    /// Memory is wanted.
    NoMemory,
}

impl AcceptRule {
    /// The error code of a KRB-ERROR (RFC 4120, section 7.5.9). That of want of memory is KRB_ERR_GENERIC.
    pub fn code(&self) -> i32
        ensures { result ≡ code_of self.now }
    {
        match self {
            AcceptRule::Malformed(_) => error_code::KRB_AP_ERR_MSG_TYPE,
            AcceptRule::NotUs => error_code::KRB_AP_ERR_NOT_US,
            AcceptRule::Version => error_code::KRB_AP_ERR_BADKEYVER,
            AcceptRule::Integrity => error_code::KRB_AP_ERR_BAD_INTEGRITY,
            AcceptRule::Match => error_code::KRB_AP_ERR_BADMATCH,
            AcceptRule::Skew => error_code::KRB_AP_ERR_SKEW,
            AcceptRule::NotYet => error_code::KRB_AP_ERR_TKT_NYV,
            AcceptRule::Ended => error_code::KRB_AP_ERR_TKT_EXPIRED,
            AcceptRule::Signature => error_code::KRB_AP_ERR_MODIFIED,
            AcceptRule::Repeat(_) => KRB_AP_ERR_REPEAT,
            AcceptRule::Full => error_code::KRB_ERR_GENERIC,
            AcceptRule::NoMemory => error_code::KRB_ERR_GENERIC,
        }
    }
}

impl From<AllocError> for AcceptRule {
    ghost use Rattle.std.specs.Prelude.{◌≡◌};
    ghost use Rattle.service_end.specs.declared.refusal.AcceptRule.TheVariants.{NoMemory};

    ghost from_gives = { λ _ fault. fault ≡ NoMemory };

    fn from(_: AllocError) -> AcceptRule {
        AcceptRule::NoMemory
    }
}

/// The rule, where its condition fails.
pub(crate) fn require(rule: AcceptRule, holds: bool) -> Result<(), AcceptRule>
    ensures { result ≡ (if holds then Ok tt else Err rule) }
{
    if holds { Ok(()) } else { Err(rule) }
}
