//! TicketFlags, RFC 4120, section 5.3: the number of each bit that a rule or a grant speaks of.

pub const FORWARDABLE: u32 = 1;

pub const INVALID: u32 = 7;

pub const INITIAL: u32 = 9;

pub const PRE_AUTHENT: u32 = 10;
