//! Messages of the Kerberos exchanges (RFC 4120, sections 5.2.7, 5.4, 5.5 and 5.9).
#![tactic(auto)]

mod ap_rep;
mod ap_req;
mod authenticator;
mod checksum;
mod enc_ap_rep;
mod enc_kdc_rep;
mod etype_info2;
mod kdc_rep;
mod kdc_req;
mod kdc_req_body;
mod krb_error;
mod last_req;
mod laws;
mod number;
mod pa_data;
mod pa_enc_ts_enc;

pub use ap_rep::ApRep;
pub use ap_req::ApReq;
pub use authenticator::Authenticator;
pub use checksum::Checksum;
pub use enc_ap_rep::EncApRep;
pub use enc_kdc_rep::EncKdcRep;
pub use etype_info2::{EtypeInfo2, EtypeInfo2Entry};
pub use kdc_rep::KdcRep;
pub use kdc_req::{KdcReq, write_request};
pub use kdc_req_body::{KdcReqBody, Tickets};
pub use krb_error::KrbError;
pub use last_req::{LastReq, LastReqs};
pub use laws::messages_keep_laws;
pub use pa_data::{PaData, PaItems};
pub use pa_enc_ts_enc::PaEncTsEnc;
