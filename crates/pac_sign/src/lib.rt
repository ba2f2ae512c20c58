//! The signatures of a PAC (MS-PAC, section 2.8).
#![tactic(auto)]

mod fault;
mod laws;
mod signing;
mod value;
mod verifying;

pub use fault::SignFault;
pub use laws::signatures_keep_laws;
pub use signing::sign;
pub use verifying::verify;
