//! What a run prints, and its status.
ghost use Rattle.std.specs.Prelude.{◌≡◌, IfOk, IfErr};
ghost use Rattle.kdc_commands.specs.Refusals.{refusal_text};
ghost use Rattle.kdc_commands.specs.Replies.{outcome_of_reply};
ghost use Rattle.kdc_commands.specs.Outcomes.{one_line};

use crate::refusal::refusal_text;
use dir_core::DirRefusal;
use kb_base::DeviceFault;
use std::alloc::Global;

/// What is printed, and the status.
#[derive(Drop)]
pub struct Reply {
    pub status: u8,
    pub text: Vec<u8>,
}

impl Reply {
    /// A status, and a line.
    pub fn line(alloc: Global, status: u8, line: &[u8]) -> Result<Reply, DeviceFault>
        ensures value { IfOk result (λ reply. outcome_of_reply reply ≡ one_line status line.now) }
        ensures memory { IfErr result (λ fault. fault ≡ DeviceFault.NoMemory) }
    {
        let mut text = Vec::from_slice(alloc, line)?;
        text.extend_from_slice(b"\n")?;
        Ok(Reply { status, text })
    }

    /// That the directory is refused.
    pub fn refused(alloc: Global, refusal: DirRefusal) -> Result<Reply, DeviceFault>
        ensures value { IfOk result (λ reply. outcome_of_reply reply ≡ one_line 4 (refusal_text refusal)) }
        ensures memory { IfErr result (λ fault. fault ≡ DeviceFault.NoMemory) }
    {
        let text = refusal_text(alloc, refusal)?;
        Reply::line(alloc, 4, text.as_slice())
    }
}
