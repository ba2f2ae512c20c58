//! The types of buffers (MS-PAC, section 2.4).

/// Logon information.
pub const LOGON_INFO: u32 = 1;

/// The server signature.
pub const SERVER_CHECKSUM: u32 = 6;

/// The KDC signature.
pub const PRIVSVR_CHECKSUM: u32 = 7;

/// Client information.
pub const CLIENT_INFO: u32 = 10;

/// Delegation information.
pub const DELEGATION_INFO: u32 = 11;

/// The ticket signature.
pub const TICKET_CHECKSUM: u32 = 16;
