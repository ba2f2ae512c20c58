//! What holds between the three ends: a client, the KDC, and the service that the client comes to. These functions do nothing.
ghost use Rattle.ends_laws.specs.Ends.{AskersFinish, AskersOpen, DenialsReach, GrantsOpen, ServicesAccept};

/// Where a rule denies a request, every client that takes the reply is told the rule's code and name, whatever it awaits
/// (RFC 4120, sections 3.1.4 and 3.3.4).
///
/// Where no rule denies a request that a client begins, it finishes with the credential that the grant gives: for the ticket's client,
/// with its session key, flags and end (RFC 4120, sections 3.1.5 and 3.3.4). It asks for itself, with its account's key, or with the
/// credential that its ticket-granting ticket shows: an ordinary TGS-REQ, S4U2self for a user, or S4U2proxy for the evidence's user
/// (MS-SFU, sections 3.1.5.1.1 and 3.1.5.2.1).
///
/// A service ticket that was granted is accepted by its service with that credential, at each moment that the ticket and the
/// authenticator allow: the service is told of the ticket's client, its user's SID and the services that delegated
/// (RFC 4120, section 3.2.3; MS-PAC, sections 2.5 and 2.9).
pub fn ends_law()
    ensures denied { DenialsReach }
    ensures finished { AskersFinish }
    ensures accepted { ServicesAccept }
{}

/// Where no rule denies a request, every client that has the key of the reply opens it, and accepts it unless its comparisons
/// say otherwise (RFC 4120, sections 3.1.5 and 3.3.4). A client that begins a request has that key.
pub fn replies_open()
    ensures opened { GrantsOpen }
    ensures known { AskersOpen }
{}
