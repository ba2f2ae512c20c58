//! KDCOptions, RFC 4120, section 5.4.1, and MS-SFU, section 2.2.3: the number of each bit that a rule or a grant speaks of.

pub const FORWARDABLE: u32 = 1;

pub const FORWARDED: u32 = 2;

pub const PROXY: u32 = 4;

pub const ALLOW_POSTDATE: u32 = 5;

pub const POSTDATED: u32 = 6;

pub const CNAME_IN_ADDL_TKT: u32 = 14;

pub const ENC_TKT_IN_SKEY: u32 = 28;

pub const RENEW: u32 = 30;

pub const VALIDATE: u32 = 31;
