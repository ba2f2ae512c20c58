//! What is known of a request for S4U2proxy that is granted. These functions do nothing.
ghost use Rattle.std.specs.Prelude.{◌≡◌, ℕ, None};
ghost use Rattle.krb_names.specs.declared.moment.Moment.{Moment};
ghost use Rattle.kdc_records.specs.declared.decision.Aim.{Aim};
ghost use Rattle.kdc_records.specs.declared.ticket_rec.TicketRec.{TicketRec};
ghost use Rattle.kdc_records.specs.declared.wish.Wish.{Wish};
ghost use Rattle.dir_records.specs.DirectoryValue.{DirectoryValue};
ghost use Rattle.proxy_rules.specs.Delegations.{HasFewServices, HasShortRequestor, HasShortTarget};
ghost use Rattle.proxy_rules.specs.ProxyRules.{ProxyGrants, Shown, ShownEvidence, proxy_verdict};

/// A request for S4U2proxy that no rule denies keeps each of the rules.
pub fn granted_delegations_keep_rules()
    ensures granted { (dir : DirectoryValue) (at : ℕ) (now : Moment) (wish : Wish) (header : TicketRec) (aim : Aim) (evidence : ShownEvidence) → proxy_verdict dir at now wish header aim (Shown evidence) ≡ None → ProxyGrants dir at now wish header aim evidence }
{}

/// The delegation of a new ticket can be written: it has at most 32 services, and its new texts are short.
pub fn delegations_can_be_written()
    ensures few { HasFewServices }
    ensures target { HasShortTarget }
    ensures requestor { HasShortRequestor }
{}
