//! The key of a password.
ghost use Rattle.std.specs.Prelude.{◌≡◌, ◌≤◌, IfOk, IfErr};
ghost use Rattle.kdc_commands.specs.Derived.{key_line};
ghost use Rattle.kdc_commands.specs.Outcomes.{one_line};
ghost use Rattle.kdc_commands.specs.Replies.{outcome_of_reply};

use crate::reply::Reply;
use crate::words::Derivation;
use kb_base::DeviceFault;
use krb_crypto::string_to_key;
use std::alloc::Global;

/// The key in hex.
pub fn derive(alloc: Global, from: &Derivation) -> Result<Reply, DeviceFault>
    requires { 1 ≤ from.now.rounds }
    ensures answer { IfOk result (λ reply. outcome_of_reply reply ≡ one_line 0 (key_line from.now)) }
    ensures memory { IfErr result (λ fault. fault ≡ DeviceFault.NoMemory) }
{
    let password = from.password.as_str().as_bytes();
    let salt = from.salt.as_str().as_bytes();
    let key = string_to_key(from.etype, password, salt, from.rounds);
    let text = hex::encode(alloc, key.bytes())?;
    Reply::line(alloc, 0, text.as_str().as_bytes())
}
