//! What a request asks for, as the rules see it.
use krb_names::{KTime, Principal, Realm, Signed};

/// How a ticket is asked for.
#[derive(Clone, Copy, Debug, PartialEq, Eq)]
pub enum Branch {
    /// An AS-REQ (RFC 4120, section 3.1).
    Initial,
    /// A TGS-REQ that asks for neither form of S4U (RFC 4120, section 3.3).
    Ordinary,
    /// S4U2self: a TGS-REQ with PA-FOR-USER or PA-S4U-X509-USER (MS-SFU, section 3.1.5.1.1).
    SelfTicket,
    /// S4U2proxy: a TGS-REQ with the option cname-in-addl-tkt (MS-SFU, section 3.1.5.2).
    Proxy,
}

/// The KDC-REQ-BODY as the rules see it (RFC 4120, section 5.4.1), with what the padata of S4U ask.
#[derive(Debug, Drop)]
pub struct Wish {
    pub branch: Branch,
    /// The realm that is asked.
    pub realm: Realm,
    /// cname: the client of an AS-REQ.
    pub client: Option<Principal>,
    /// sname: the server.
    pub server: Option<Principal>,
    /// kdc-options, bit 0 the highest.
    pub options: u32,
    pub from: Option<KTime>,
    /// The end that is asked for; 1970 for no bound.
    pub till: KTime,
    /// The encryption types, the preferred first.
    pub etypes: Signed,
    /// -2^31 to 2^32 - 1.
    pub nonce: i64,
    /// The user of S4U2self.
    pub user: Option<Principal>,
    /// The resource-based bit of PA-PAC-OPTIONS (MS-KILE, section 2.2.10; MS-SFU, section 2.2.5).
    pub rbcd: bool,
    /// How many additional tickets there are.
    pub extra: u32,
    /// Whether S4U2self and S4U2proxy were asked at once.
    pub both: bool,
}
