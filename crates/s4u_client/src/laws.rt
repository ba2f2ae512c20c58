//! What holds of what a client sends.
ghost use Rattle.s4u_client.specs.Reads.{AsRequestsRead, AuthenticatorsOpen, HeadersRead, ProxyRequestsRead, SelfRequestsRead, ServiceRequestsRead, StampsOpen, StampsRead, TgsRequestsRead, UsersRead};

/// Each message reads as what it was made of, and so does each of its padata. What is sealed in it opens under the key that it was
/// sealed with, and reads likewise.
pub fn requests_read_back()
    ensures initial { AsRequestsRead }
    ensures ordinary { TgsRequestsRead }
    ensures self_service { SelfRequestsRead }
    ensures proxy { ProxyRequestsRead }
    ensures service { ServiceRequestsRead }
    ensures header { HeadersRead }
    ensures stamp { StampsRead }
    ensures users { UsersRead }
    ensures stamp_opens { StampsOpen }
    ensures authenticator_opens { AuthenticatorsOpen }
{}
