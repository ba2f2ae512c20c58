//! Entropy in memory.
ghost use Rattle.std.specs.Prelude.{◌≡◌, ◌↔◌, true, Some, IsErr, OnErr};
ghost use Rattle.kdc_prelude.specs.Causes.{HasCause};
ghost use Rattle.kb_base.specs.Blocks.{DrawsBlock};
ghost use Rattle.kb_base.specs.Counts.{is_listed, one_more};

use crate::blocks::Blocks;
use crate::entropy::Entropy;
use crate::fault::Failed;
use crate::front::is_listed;
use krb_names::Numbers;
use std::alloc::Global;
use std::marker::Model;

/// Blocks in memory, of which the drawings with the listed numbers, counted from 1, fail. Past the end of the list a block is its
/// number, counted from 1 over all blocks, in 8 octets with the high one first, eight times.
#[derive(Debug, Drop)]
pub struct MemEntropy {
    blocks: Blocks,
    fails: Numbers,
    calls: u64,
    faults: u64,
}

impl Model for MemEntropy {
    ghost use Rattle.kb_base.specs.Held.{EntropyValue};

    ghost Value = { EntropyValue };

    ghost view = { λ s. record { blocks = s.blocks; fails = s.fails; calls = s.calls; faults = s.faults } };
}

impl MemEntropy {
    /// These blocks, in their order.
    pub fn new(_alloc: Global, blocks: Vec<[u8; 64]>, fails: Numbers) -> MemEntropy
        ensures { result ≡ record { blocks = record { list = blocks.items; drawn = 0 }; fails = fails; calls = 0; faults = 0 } }
    {
        MemEntropy {
            blocks: Blocks::new(blocks),
            fails,
            calls: 0,
            faults: 0,
        }
    }
}

impl Entropy for MemEntropy {
    ghost blocks = { λ s. Some s.blocks };

    ghost faults = { λ s. s.faults };

    fn fill(&mut self, block: &mut [u8; 64]) -> Result<(), Failed>
        ensures drawn { DrawsBlock (Some self.old.blocks) (Some self.new.blocks) result block.new }
        ensures err { OnErr result (block.new ≡ block.old) }
        ensures cause { HasCause self.old.faults self.new.faults result }
        ensures listed { IsErr result ↔ (is_listed self.old.fails (one_more self.old.calls) ≡ true) }
        ensures counted { (self.new.calls ≡ one_more self.old.calls) × (self.new.fails ≡ self.old.fails) }
    {
        self.calls = self.calls.saturating_add(1);
        if is_listed(self.fails.as_slice(), self.calls) {
            self.faults = self.faults.saturating_add(1);
            return Err(Failed);
        }
        *block = self.blocks.draw();
        Ok(())
    }
}
