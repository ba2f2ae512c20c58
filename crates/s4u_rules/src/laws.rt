//! What holds of TGS-REQs. These functions do nothing.
ghost use Rattle.std.specs.Prelude.{◌≡◌, ℕ, List, None, true};
ghost use Rattle.krb_names.specs.declared.moment.Moment.{Moment};
ghost use Rattle.kdc_records.specs.declared.decision.Aim.{Aim};
ghost use Rattle.kdc_records.specs.declared.ticket_rec.TicketRec.{TicketRec};
ghost use Rattle.kdc_records.specs.declared.wish.Wish.{Wish};
ghost use Rattle.kdc_records.specs.Decisions.{is_grant};
ghost use Rattle.dir_records.specs.declared.records.RealmRec.{RealmRec};
ghost use Rattle.dir_records.specs.DirectoryValue.{DirectoryValue};
ghost use Rattle.dir_records.specs.WellFormed.{is_well_formed};
ghost use Rattle.s4u_rules.specs.Agreement.{AnswersAgree, Asks, RulesAgree, name_of};
ghost use Rattle.s4u_rules.specs.Granted.{EndsLater, HeaderGrants, SelfGrants};
ghost use Rattle.s4u_rules.specs.Headers.{SeenHeader};
ghost use Rattle.s4u_rules.specs.SelfRules.{SeenSelf, self_decision};
ghost use Rattle.s4u_rules.specs.TgsRules.{header_verdict, ordinary_decision};

/// A TGS-REQ that is granted keeps each of the rules.
pub fn granted_tickets_keep_rules()
    ensures header { (dir : DirectoryValue) (at : ℕ) (now : Moment) (wish : Wish) (seen : SeenHeader) → header_verdict dir at now wish seen ≡ None → HeaderGrants dir at now wish seen }
    ensures ordinary { (dir : DirectoryValue) (at : ℕ) (now : Moment) (wish : Wish) (rec : TicketRec) (aim : Aim) → is_grant (ordinary_decision dir at now wish rec aim) ≡ true → EndsLater dir at now wish rec }
    ensures self_ticket { (dir : DirectoryValue) (at : ℕ) (now : Moment) (wish : Wish) (rec : TicketRec) (aim : Aim) (seen : SeenSelf) → is_grant (self_decision dir at now wish rec aim seen) ≡ true → SelfGrants dir at now wish rec seen }
{}

/// A question about S4U2self is answered as the request is, by which the service asks for it.
pub fn questions_tell_requests()
    ensures rules { (dir : DirectoryValue) (at : ℕ) (realm : RealmRec) (service user user_realm : List ℕ) (wish : Wish) (rec : TicketRec) → is_well_formed dir ≡ true → Asks dir at realm (name_of service realm.name) (name_of user user_realm) wish rec → RulesAgree dir at (name_of service realm.name) (name_of user user_realm) wish rec }
    ensures answers { (dir : DirectoryValue) (at : ℕ) (realm : RealmRec) (service user user_realm : List ℕ) (wish : Wish) (rec : TicketRec) (aim : Aim) → is_well_formed dir ≡ true → Asks dir at realm (name_of service realm.name) (name_of user user_realm) wish rec → AnswersAgree dir at (name_of service realm.name) (name_of user user_realm) wish rec aim }
{}
