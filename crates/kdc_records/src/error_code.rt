//! The error codes of KRB-ERROR that the rules answer with, RFC 4120, section 7.5.9.

pub const KDC_ERR_BAD_PVNO: i32 = 3;

pub const KDC_ERR_C_PRINCIPAL_UNKNOWN: i32 = 6;

pub const KDC_ERR_S_PRINCIPAL_UNKNOWN: i32 = 7;

pub const KDC_ERR_CANNOT_POSTDATE: i32 = 10;

pub const KDC_ERR_NEVER_VALID: i32 = 11;

pub const KDC_ERR_POLICY: i32 = 12;

pub const KDC_ERR_BADOPTION: i32 = 13;

pub const KDC_ERR_ETYPE_NOSUPP: i32 = 14;

pub const KDC_ERR_PADATA_TYPE_NOSUPP: i32 = 16;

pub const KDC_ERR_CLIENT_REVOKED: i32 = 18;

pub const KDC_ERR_SERVICE_REVOKED: i32 = 19;

pub const KDC_ERR_TGT_REVOKED: i32 = 20;

pub const KDC_ERR_PREAUTH_FAILED: i32 = 24;

pub const KDC_ERR_PREAUTH_REQUIRED: i32 = 25;

pub const KDC_ERR_PATH_NOT_ACCEPTED: i32 = 28;

pub const KRB_AP_ERR_BAD_INTEGRITY: i32 = 31;

pub const KRB_AP_ERR_TKT_EXPIRED: i32 = 32;

pub const KRB_AP_ERR_TKT_NYV: i32 = 33;

pub const KRB_AP_ERR_NOT_US: i32 = 35;

pub const KRB_AP_ERR_BADMATCH: i32 = 36;

pub const KRB_AP_ERR_SKEW: i32 = 37;

pub const KRB_AP_ERR_MSG_TYPE: i32 = 40;

pub const KRB_AP_ERR_MODIFIED: i32 = 41;

pub const KRB_AP_ERR_BADKEYVER: i32 = 44;

pub const KRB_AP_ERR_INAPP_CKSUM: i32 = 50;

pub const KRB_ERR_GENERIC: i32 = 60;

pub const KRB_ERR_FIELD_TOOLONG: i32 = 61;

pub const KDC_ERR_WRONG_REALM: i32 = 68;
