//! What holds of histories of exchanges. This function does nothing.
ghost use Rattle.history_laws.specs.Laws.{ChainLaw, ImpersonatingLaw, ListLaw, UserLaw};
ghost use Rattle.history_laws.specs.Openings.{EntriesAreGranted, OpensLaw};

/// In every history of answered exchanges, whatever their directories have to do with one another, each entry unfolds, unless it is
/// tainted: each step to it was permitted by the directory and at the moment of the step's own exchange (RFC 4120, section 3;
/// MS-SFU, section 3.2.5). Its services are those of its user's line, in order and whole; that line goes back to an initial ticket, or to
/// S4U2self for a user of the realm, and the user is the same all along it. An entry is tainted where a ticket was shown for it, or
/// for an entry that it goes back to, that verified although no earlier entry had issued it. Where two entries issued equal parts to
/// one party, which takes equal blocks, the first one counts.
///
/// An exchange is an entry exactly where no rule denies its request. The ticket in its reply opens, under the key that its holder has
/// in the exchange's directory, to the part and the record of the entry. It is a service ticket on behalf of a user exactly where the
/// request asks for S4U2self or S4U2proxy and aims at an account (MS-SFU, section 3.2.5).
pub fn chain_law()
    ensures chain { ChainLaw }
    ensures list { ListLaw }
    ensures user { UserLaw }
    ensures opens { OpensLaw }
    ensures granted { EntriesAreGranted }
    ensures impersonating { ImpersonatingLaw }
{}
