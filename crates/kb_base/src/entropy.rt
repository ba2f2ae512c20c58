//! Random octets.
ghost use Rattle.std.specs.Prelude.{◌≡◌, ℕ, Option, OnErr};
ghost use Rattle.kdc_prelude.specs.Causes.{HasCause};
ghost use Rattle.kb_base.specs.Blocks.{BlocksValue, DrawsBlock};

use crate::fault::Failed;

/// Random octets, in blocks of 64.
pub trait Entropy {
    ghost blocks: { Self → Option BlocksValue };

    ghost faults: { Self → ℕ };

    /// Fills the block. A call that fails draws none, and leaves the block as it was.
    fn fill(&mut self, block: &mut [u8; 64]) -> Result<(), Failed>
        ensures drawn { DrawsBlock (blocks self.old) (blocks self.new) result block.new }
        ensures err { OnErr result (block.new ≡ block.old) }
        ensures cause { HasCause (faults self.old) (faults self.new) result };
}
