//! What is known of a request by its verdict.
ghost use Rattle.std.specs.Prelude.{◌≡◌, ◌<◌, ℕ, List, None, Some, length};
ghost use Rattle.krb_names.specs.declared.moment.Moment.{Moment};
ghost use Rattle.dir_records.specs.DirectoryValue.{DirectoryValue};
ghost use Rattle.as_core.specs.AsRequests.{as_ask};
ghost use Rattle.as_core.specs.AsRules.{AsGrants};
ghost use Rattle.kdc_records.specs.declared.wish.Branch.TheVariants.{Initial, Ordinary, Proxy, SelfTicket};
ghost use Rattle.tgs_requests.specs.Askings.{branch_of};
ghost use Rattle.tgs_core.specs.Answers.{answered_long, answered_to};
ghost use Rattle.tgs_core.specs.Requests.{Request, request_in};
ghost use Rattle.tgs_core.specs.Verdicts.{OpeningGrants, OrdinaryGrants, ProxyTicketGrants, SelfTicketGrants, verdict};

/// A request that is granted keeps each of the rules of a request by itself, and each of those of its branch. A request that
/// is too long is answered as if it had not been taken in.
pub fn verdicts_keep_laws()
    ensures opening { (dir : DirectoryValue) (now : Moment) (bytes : List ℕ) → verdict dir now bytes ≡ None → OpeningGrants dir bytes }
    ensures initial { (dir : DirectoryValue) (now : Moment) (bytes : List ℕ) (request : Request) → verdict dir now bytes ≡ None → request_in dir bytes ≡ Some request → branch_of request.message ≡ Initial → AsGrants (as_ask dir request.realm now request.message) }
    ensures ordinary { (dir : DirectoryValue) (now : Moment) (bytes : List ℕ) (request : Request) → verdict dir now bytes ≡ None → request_in dir bytes ≡ Some request → branch_of request.message ≡ Ordinary → OrdinaryGrants dir now request }
    ensures self_ticket { (dir : DirectoryValue) (now : Moment) (bytes : List ℕ) (request : Request) → verdict dir now bytes ≡ None → request_in dir bytes ≡ Some request → branch_of request.message ≡ SelfTicket → SelfTicketGrants dir now request }
    ensures proxy { (dir : DirectoryValue) (now : Moment) (bytes : List ℕ) (request : Request) → verdict dir now bytes ≡ None → request_in dir bytes ≡ Some request → branch_of request.message ≡ Proxy → ProxyTicketGrants dir now request }
    ensures long { (dir : DirectoryValue) (now : Moment) (block bytes : List ℕ) → 131072 < length bytes → answered_to dir now block bytes ≡ answered_long dir now }
{}
