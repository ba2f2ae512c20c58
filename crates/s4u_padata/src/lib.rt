//! Padata of S4U requests (MS-SFU, sections 2.2.1 and 2.2.2; MS-KILE, section 2.2.10).
#![tactic(auto)]

mod covered;
mod for_user;
mod laws;
mod pac_options;
mod sum;
mod user_id;
mod x509_user;

pub use covered::for_user_bytes;
pub use for_user::ForUser;
pub use laws::padata_keep_laws;
pub use pac_options::PacOptions;
pub use user_id::UserId;
pub use x509_user::X509User;
