//! The rules by which a KDC judges a request, and the error codes that they answer with.
ghost use Rattle.std.specs.Prelude.{◌≡◌, Ok, Err, if◌then◌else◌};
ghost use Rattle.kdc_records.specs.RuleCodes.{code_of};
ghost use Rattle.kdc_records.specs.RuleNames.{name_of};

use crate::error_code;

/// The rules, in the order in which they are tried: of an AS-REQ `U` and `A`; of an ordinary TGS-REQ `U`, `G` and
/// `T1`; of an S4U2self request `U`, `G`, `S` and `T1`; of an S4U2proxy request `U`, `G`, `P` and `T1`. The first
/// whose condition fails denies the request.
#[derive(Clone, Copy, Debug, PartialEq, Eq)]
pub enum Rule {
    /// The request has at most 131,072 bytes (own choice).
    U1,
    /// Its first byte is the tag of an AS-REQ or a TGS-REQ (RFC 4120, section 5.4.1).
    U2,
    /// It reads as a KDC-REQ whose msg-type agrees with its tag (RFC 4120, section 5.4.1).
    U3,
    /// Pvno is 5 (RFC 4120, section 5.4.1).
    U4,
    /// The realm of the body is a realm of the directory (RFC 4120, section 3.1.3).
    U5,
    /// The client is named, by one part or as an enterprise name of this realm, and is an account of this realm (RFC 4120, section 3.1.3).
    A1,
    /// The client's account is not disabled (RFC 4120, section 3.1.3).
    A2,
    /// The server is named and is this realm's krbtgt (own choice).
    A3,
    /// The options allow-postdate and postdated are clear, and from is absent or at most 300 seconds after now (own choice, of RFC 4120, section 3.1.3).
    A4,
    /// The options forwarded, proxy, cname-in-addl-tkt, enc-tkt-in-skey, renew and validate are clear (RFC 4120, section 3.1.3, and MS-SFU, section 2.2.3).
    A5,
    /// The etype list has the type of the client's key (RFC 4120, section 3.1.3).
    A6,
    /// Where the account needs pre-authentication, PA-ENC-TIMESTAMP is there (RFC 4120, section 3.1.3).
    A7,
    /// The first PA-ENC-TIMESTAMP, if there is one, is of the key's type, opens with key usage 1 and reads (RFC 4120, section 5.2.7.2).
    A8,
    /// Its time, if there is one, is within 300 seconds of now (RFC 4120, section 3.1.3).
    A9,
    /// The end of the ticket is later than now (RFC 4120, section 3.1.3).
    A10,
    /// There is exactly one PA-TGS-REQ, and it reads as an AP-REQ (RFC 4120, section 3.3.2).
    G1,
    /// Its ticket is named krbtgt of this realm and was issued by this realm or by a realm with a trust to it (RFC 4120, section 3.3.2).
    G2,
    /// The ticket's kvno is absent or the key's version, and its etype is the key's (RFC 4120, section 3.2.3).
    G3,
    /// The ticket opens with key usage 2 and reads as an EncTicketPart with a key of type 17 or 18 (RFC 4120, section 3.2.3).
    G4,
    /// The authenticator opens with key usage 7 and reads, and a subkey is of type 17 or 18 (RFC 4120, section 3.2.3).
    G5,
    /// The client of the authenticator is the ticket's, by name and realm (RFC 4120, section 3.2.3).
    G6,
    /// The authenticator's checksum is there and of the session key's checksum type (own choice, of RFC 4120, section 3.3.2).
    G7,
    /// That checksum verifies with key usage 6 over the body's bytes as received (RFC 4120, section 3.3.2).
    G8,
    /// The authenticator's time is within 300 seconds of now (RFC 4120, section 3.2.3).
    G9,
    /// The ticket's starttime, or its authtime where that is absent, is at most 300 seconds after now, and its flag invalid is clear (RFC 4120, section 3.2.3).
    G10,
    /// Now is earlier than the ticket's endtime (RFC 4120, section 3.2.3).
    G11,
    /// The ticket's PAC reads, its server signature verifies, for a local ticket its KDC signature too, and its client info agrees (MS-PAC, section 2.8).
    G12,
    /// A requestor of this realm has an account, and where subject and client are one that account has the subject's SID (own choice, of RFC 4120, section 3.3.3.1).
    G13,
    /// That account is not disabled (own choice, of RFC 4120, section 3.3.3.1).
    G14,
    /// The trust behind a cross-realm ticket reaches the subject's realm, and the subject's SID is that realm's SID and one number (own choice, after the SID filtering of MS-PAC).
    G15,
    /// That trust reaches each transited realm, and there are fewer than 32 (own choice, of RFC 4120, section 3.3.3.2).
    G16,
    /// The options allow-postdate and postdated are clear, and from is absent or at most 300 seconds after now (own choice, of RFC 4120, section 3.3.3).
    G17,
    /// The options forwarded, proxy, enc-tkt-in-skey, renew and validate are clear, and S4U2self and S4U2proxy are not both asked for (own choice, of RFC 4120, section 3.3.3).
    G18,
    /// The server is named and known, and with a cross-realm ticket it is not this realm's krbtgt (RFC 4120, section 3.3.3).
    G19,
    /// The account that is the server is not disabled (own choice).
    G20,
    /// The etype list has type 17 or 18 (RFC 4120, section 3.3.3).
    G21,
    /// The header ticket has no delegation, and outside S4U2self its subject is its client (own choice).
    G22,
    /// PA-FOR-USER and PA-S4U-X509-USER occur at most once each and read, the latter has a name and the body's nonce, and both name one user (MS-SFU, sections 2.2.1 and 2.2.2).
    S1,
    /// The checksum of PA-FOR-USER is of type -138, that of PA-S4U-X509-USER of the type of its key (MS-SFU, sections 2.2.1 and 2.2.2).
    S2,
    /// Each of these checksums verifies (MS-SFU, sections 2.2.1 and 2.2.2).
    S3,
    /// The server is the account of the requestor's name and realm, and that account has an SPN (MS-SFU, "KDC Receives S4U2self KRB_TGS_REQ").
    S4,
    /// The user is of this realm and the header's subject is its client, or the user is of another realm and is the header's subject (own choice, of MS-SFU, "KDC Receives S4U2self KRB_TGS_REQ").
    S5,
    /// A user of this realm is an account of it (MS-SFU, "KDC Receives S4U2self KRB_TGS_REQ").
    S6,
    /// That account is not disabled (own choice).
    S7,
    /// There is exactly one additional ticket (MS-SFU, "KDC Receives S4U2proxy KRB_TGS_REQ").
    P1,
    /// The additional ticket of a requestor of this realm was issued by this realm, and its name gives the requestor's account; that of a requestor of another realm is a cross-realm ticket into this realm (MS-SFU, "KDC Receives S4U2proxy KRB_TGS_REQ").
    P2,
    /// The additional ticket's kvno is absent or the key's version, and its etype is the key's (RFC 4120, section 3.2.3).
    P3,
    /// It opens with key usage 2 and reads as an EncTicketPart with a key of type 17 or 18 (RFC 4120, section 3.2.3).
    P4,
    /// Its PAC reads and its server signature verifies, for a service ticket its KDC and ticket signatures too (MS-PAC, section 2.8).
    P5,
    /// Its client info agrees; a cross-realm one names the requestor as client and as last service of its delegation, and the asked server as target (own choice).
    P6,
    /// Its starttime is at most 300 seconds after now, its flag invalid is clear, and now is earlier than its endtime (RFC 4120, section 3.2.3).
    P7,
    /// A cross-realm one meets the conditions of G15 and G16 for its own subject and trust (own choice, after the SID filtering of MS-PAC).
    P8,
    /// It is forwardable, or the request asks for resource-based delegation (MS-SFU, "KDC Receives S4U2proxy KRB_TGS_REQ").
    P9,
    /// It is forwardable, or its user may be delegated (MS-SFU, "KDC Receives S4U2proxy KRB_TGS_REQ").
    P10,
    /// The target resolves to an account, and one of these holds. Classic: the requestor and the target are of this realm, the evidence is forwardable, and the target's account holds an SPN of the requestor's list. Resource-based: the target is of this realm, the option is set, the user is not marked, and the header's subject SID is in the target's list. Referral: the target is of another realm, the option is set, and the user is not marked (MS-SFU, "KDC Receives S4U2proxy KRB_TGS_REQ").
    P11,
    /// The delegation of a local requestor's ticket has fewer than 32 services (own choice).
    P12,
    /// The end of the ticket is later than now (RFC 4120, section 3.3.3).
    T1,
}

impl Rule {
    /// Its name, which is the e-text of the KRB-ERROR.
    pub fn name(self) -> &'static str
        ensures { result.now ≡ name_of self }
    {
        match self {
            Rule::U1 => "U1",
            Rule::U2 => "U2",
            Rule::U3 => "U3",
            Rule::U4 => "U4",
            Rule::U5 => "U5",
            Rule::A1 => "A1",
            Rule::A2 => "A2",
            Rule::A3 => "A3",
            Rule::A4 => "A4",
            Rule::A5 => "A5",
            Rule::A6 => "A6",
            Rule::A7 => "A7",
            Rule::A8 => "A8",
            Rule::A9 => "A9",
            Rule::A10 => "A10",
            Rule::G1 => "G1",
            Rule::G2 => "G2",
            Rule::G3 => "G3",
            Rule::G4 => "G4",
            Rule::G5 => "G5",
            Rule::G6 => "G6",
            Rule::G7 => "G7",
            Rule::G8 => "G8",
            Rule::G9 => "G9",
            Rule::G10 => "G10",
            Rule::G11 => "G11",
            Rule::G12 => "G12",
            Rule::G13 => "G13",
            Rule::G14 => "G14",
            Rule::G15 => "G15",
            Rule::G16 => "G16",
            Rule::G17 => "G17",
            Rule::G18 => "G18",
            Rule::G19 => "G19",
            Rule::G20 => "G20",
            Rule::G21 => "G21",
            Rule::G22 => "G22",
            Rule::S1 => "S1",
            Rule::S2 => "S2",
            Rule::S3 => "S3",
            Rule::S4 => "S4",
            Rule::S5 => "S5",
            Rule::S6 => "S6",
            Rule::S7 => "S7",
            Rule::P1 => "P1",
            Rule::P2 => "P2",
            Rule::P3 => "P3",
            Rule::P4 => "P4",
            Rule::P5 => "P5",
            Rule::P6 => "P6",
            Rule::P7 => "P7",
            Rule::P8 => "P8",
            Rule::P9 => "P9",
            Rule::P10 => "P10",
            Rule::P11 => "P11",
            Rule::P12 => "P12",
            Rule::T1 => "T1",
        }
    }

    /// The error-code of the KRB-ERROR (RFC 4120, section 7.5.9).
    pub fn code(self) -> i32
        ensures { result ≡ code_of self }
    {
        match self {
            Rule::U1 => error_code::KRB_ERR_FIELD_TOOLONG,
            Rule::U2 => error_code::KRB_AP_ERR_MSG_TYPE,
            Rule::U3 => error_code::KRB_ERR_GENERIC,
            Rule::U4 => error_code::KDC_ERR_BAD_PVNO,
            Rule::U5 => error_code::KDC_ERR_WRONG_REALM,
            Rule::A1 => error_code::KDC_ERR_C_PRINCIPAL_UNKNOWN,
            Rule::A2 => error_code::KDC_ERR_CLIENT_REVOKED,
            Rule::A3 => error_code::KDC_ERR_S_PRINCIPAL_UNKNOWN,
            Rule::A4 => error_code::KDC_ERR_CANNOT_POSTDATE,
            Rule::A5 => error_code::KDC_ERR_BADOPTION,
            Rule::A6 => error_code::KDC_ERR_ETYPE_NOSUPP,
            Rule::A7 => error_code::KDC_ERR_PREAUTH_REQUIRED,
            Rule::A8 => error_code::KDC_ERR_PREAUTH_FAILED,
            Rule::A9 => error_code::KRB_AP_ERR_SKEW,
            Rule::A10 => error_code::KDC_ERR_NEVER_VALID,
            Rule::G1 => error_code::KDC_ERR_PADATA_TYPE_NOSUPP,
            Rule::G2 => error_code::KRB_AP_ERR_NOT_US,
            Rule::G3 => error_code::KRB_AP_ERR_BADKEYVER,
            Rule::G4 => error_code::KRB_AP_ERR_BAD_INTEGRITY,
            Rule::G5 => error_code::KRB_AP_ERR_BAD_INTEGRITY,
            Rule::G6 => error_code::KRB_AP_ERR_BADMATCH,
            Rule::G7 => error_code::KRB_AP_ERR_INAPP_CKSUM,
            Rule::G8 => error_code::KRB_AP_ERR_MODIFIED,
            Rule::G9 => error_code::KRB_AP_ERR_SKEW,
            Rule::G10 => error_code::KRB_AP_ERR_TKT_NYV,
            Rule::G11 => error_code::KRB_AP_ERR_TKT_EXPIRED,
            Rule::G12 => error_code::KRB_AP_ERR_MODIFIED,
            Rule::G13 => error_code::KDC_ERR_TGT_REVOKED,
            Rule::G14 => error_code::KDC_ERR_CLIENT_REVOKED,
            Rule::G15 => error_code::KDC_ERR_POLICY,
            Rule::G16 => error_code::KDC_ERR_PATH_NOT_ACCEPTED,
            Rule::G17 => error_code::KDC_ERR_CANNOT_POSTDATE,
            Rule::G18 => error_code::KDC_ERR_BADOPTION,
            Rule::G19 => error_code::KDC_ERR_S_PRINCIPAL_UNKNOWN,
            Rule::G20 => error_code::KDC_ERR_SERVICE_REVOKED,
            Rule::G21 => error_code::KDC_ERR_ETYPE_NOSUPP,
            Rule::G22 => error_code::KDC_ERR_BADOPTION,
            Rule::S1 => error_code::KDC_ERR_BADOPTION,
            Rule::S2 => error_code::KRB_AP_ERR_INAPP_CKSUM,
            Rule::S3 => error_code::KRB_AP_ERR_MODIFIED,
            Rule::S4 => error_code::KDC_ERR_BADOPTION,
            Rule::S5 => error_code::KDC_ERR_WRONG_REALM,
            Rule::S6 => error_code::KDC_ERR_C_PRINCIPAL_UNKNOWN,
            Rule::S7 => error_code::KDC_ERR_CLIENT_REVOKED,
            Rule::P1 => error_code::KDC_ERR_BADOPTION,
            Rule::P2 => error_code::KRB_AP_ERR_NOT_US,
            Rule::P3 => error_code::KRB_AP_ERR_BADKEYVER,
            Rule::P4 => error_code::KRB_AP_ERR_BAD_INTEGRITY,
            Rule::P5 => error_code::KRB_AP_ERR_MODIFIED,
            Rule::P6 => error_code::KRB_AP_ERR_BADMATCH,
            Rule::P7 => error_code::KRB_AP_ERR_TKT_EXPIRED,
            Rule::P8 => error_code::KDC_ERR_POLICY,
            Rule::P9 => error_code::KDC_ERR_BADOPTION,
            Rule::P10 => error_code::KDC_ERR_BADOPTION,
            Rule::P11 => error_code::KDC_ERR_BADOPTION,
            Rule::P12 => error_code::KDC_ERR_BADOPTION,
            Rule::T1 => error_code::KDC_ERR_NEVER_VALID,
        }
    }
}

/// The rule, where its condition fails.
pub fn require(rule: Rule, holds: bool) -> Result<(), Rule>
    ensures { result ≡ (if holds then Ok tt else Err rule) }
{
    if holds { Ok(()) } else { Err(rule) }
}
