//! What holds of tickets.

ghost use Rattle.ticket_codec.specs.Laws.{CrossEvidenceIsOfThisRealm, EvidenceIsOfTheRequestor, FirstRuleIsTold, HeadersAreOfThisRealm, ShownIsTold, TicketsAreShown};

/// A ticket that was made of a record shows that record. What a ticket shows is the record that its part tells; where it
/// shows nothing, the first rule that fails is told. For whom a ticket is sealed that opens, in each role.
pub fn tickets_keep_laws()
    ensures value { TicketsAreShown }
    ensures exact { ShownIsTold }
    ensures first { FirstRuleIsTold }
    ensures header { HeadersAreOfThisRealm }
    ensures cross { CrossEvidenceIsOfThisRealm }
    ensures requestor { EvidenceIsOfTheRequestor }
{}
