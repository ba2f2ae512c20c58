//! What a ticket is shown as.
ghost use Rattle.std.specs.Prelude.{◌≡◌};
ghost use Rattle.ticket_codec.specs.Opening.{unopened_rule};
ghost use Rattle.ticket_codec.specs.Roles.{key_rule, name_rule, opening_rule, pac_rule};

use crate::fault::Unopened;
use dir_core::Rule;

/// What a ticket is shown as, at a realm.
#[derive(Clone, Copy, Debug, PartialEq, Eq)]
pub enum Role {
    /// The ticket-granting ticket of a request (PA-TGS-REQ), local or cross-realm.
    Header,
    /// The evidence ticket of S4U2proxy, for the account at this index of the realm, which asks.
    Evidence(u32),
    /// The evidence ticket of S4U2proxy of a requestor of another realm: a cross-realm ticket-granting ticket.
    CrossEvidence,
}

impl Role {
    /// The rule that the ticket is for the realm or the account: `header_is_for_this_realm`, `evidence_is_for_requestor`.
    pub fn name_rule(self) -> Rule
        ensures { result ≡ name_rule self }
    {
        match self {
            Role::Header => Rule::G2,
            Role::Evidence(_) | Role::CrossEvidence => Rule::P2,
        }
    }

    /// The rule that its key version and type are the key's: `header_key_fits`, `evidence_key_fits`.
    pub fn key_rule(self) -> Rule
        ensures { result ≡ key_rule self }
    {
        match self {
            Role::Header => Rule::G3,
            Role::Evidence(_) | Role::CrossEvidence => Rule::P3,
        }
    }

    /// The rule that it opens and reads: `header_opens`, `evidence_opens`.
    pub fn opening_rule(self) -> Rule
        ensures { result ≡ opening_rule self }
    {
        match self {
            Role::Header => Rule::G4,
            Role::Evidence(_) | Role::CrossEvidence => Rule::P4,
        }
    }

    /// The rule that fails where a ticket does not open.
    pub fn unopened_rule(self, unopened: Unopened) -> Rule
        ensures { result ≡ unopened_rule self unopened }
    {
        match unopened {
            Unopened::WrongKey => self.key_rule(),
            Unopened::Unreadable => self.opening_rule(),
        }
    }

    /// The rule that its PAC reads and the signatures are right: `header_pac_is_right`, `evidence_pac_is_right`.
    pub fn pac_rule(self) -> Rule
        ensures { result ≡ pac_rule self }
    {
        match self {
            Role::Header => Rule::G12,
            Role::Evidence(_) | Role::CrossEvidence => Rule::P5,
        }
    }
}
