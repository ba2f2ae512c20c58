//! Entropy in memory that never fails.
ghost use Rattle.std.specs.Prelude.{◌≡◌, Some};

use crate::blocks::Blocks;
use crate::entropy::Entropy;
use crate::fault::Failed;
use std::alloc::Global;
use std::marker::Model;

/// Blocks in memory, as those of `MemEntropy`. No drawing fails.
#[derive(Debug, Drop)]
pub struct SteadyEntropy {
    blocks: Blocks,
}

impl Model for SteadyEntropy {
    ghost use Rattle.kb_base.specs.Blocks.{BlocksValue};

    ghost Value = { BlocksValue };

    ghost view = { λ s. s.blocks };
}

impl SteadyEntropy {
    /// These blocks, in their order.
    pub fn new(_alloc: Global, blocks: Vec<[u8; 64]>) -> SteadyEntropy
        ensures { result ≡ record { list = blocks.items; drawn = 0 } }
    {
        SteadyEntropy {
            blocks: Blocks::new(blocks),
        }
    }
}

impl Entropy for SteadyEntropy {
    ghost blocks = { λ s. Some s };

    ghost faults = { λ _. 0 };

    fn fill(&mut self, block: &mut [u8; 64]) -> Result<(), Failed> {
        *block = self.blocks.draw();
        Ok(())
    }
}
