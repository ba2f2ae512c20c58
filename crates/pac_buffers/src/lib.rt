//! The buffers of a PAC (MS-PAC, sections 2.3 to 2.9).
#![tactic(auto)]

mod buffer_type;
mod client_info;
mod container;
mod delegation_info;
mod draft;
mod info_buffer;
mod kinds;
mod laws;
mod list;
mod overlap;
mod refusal;
mod requestor;
mod signature_data;
mod view;

pub use buffer_type::{
    CLIENT_INFO, DELEGATION_INFO, LOGON_INFO, PRIVSVR_CHECKSUM, SERVER_CHECKSUM, TICKET_CHECKSUM,
};
pub use client_info::ClientInfo;
pub use container::Pac;
pub use delegation_info::DelegationInfo;
pub use laws::{buffers_keep_laws, pac_keeps_laws};
pub use refusal::PacRefusal;
pub use requestor::Requestor;
pub use signature_data::SignatureData;
pub use view::PacView;
