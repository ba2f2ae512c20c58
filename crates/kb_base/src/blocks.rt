//! Random octets in memory.
ghost use Rattle.std.specs.Prelude.{◌≡◌, ◌+◌, ◌<◌};
ghost use Rattle.kb_base.specs.Blocks.{block_at, drawn_one, numbered_block};

use std::marker::Model;

/// Blocks of 64 octets, and how many were drawn.
#[derive(Debug, Drop)]
pub(crate) struct Blocks {
    list: Vec<[u8; 64]>,
    drawn: u64,
}

impl Model for Blocks {
    ghost use Rattle.kb_base.specs.Blocks.{BlocksValue};

    ghost Value = { BlocksValue };

    ghost view = { λ s. record { list = s.list.items; drawn = s.drawn } };
}

impl Blocks {
    /// These blocks, none of them drawn.
    pub(crate) fn new(list: Vec<[u8; 64]>) -> Blocks
        ensures { result ≡ record { list = list.items; drawn = 0 } }
    {
        Blocks { list, drawn: 0 }
    }

    /// Draws the next block: past the end of the list its number, counted from 1 over all blocks.
    pub(crate) fn draw(&mut self) -> [u8; 64]
        ensures value { result ≡ block_at self.old.list self.new.drawn }
        ensures drawn { self.new ≡ drawn_one self.old }
    {
        self.drawn = self.drawn.saturating_add(1);
        block_at(self.list.as_slice(), self.drawn)
    }
}

fn block_at(list: &[[u8; 64]], number: u64) -> [u8; 64]
    requires { 0 < number }
    ensures { result ≡ block_at list.now number }
{
    match list.get((number - 1) as usize) {
        Some(block) => *block,
        None => numbered_block(number),
    }
}

fn numbered_block(number: u64) -> [u8; 64]
    ensures { result ≡ numbered_block number }
{
    let octets = number.to_be_bytes();
    let mut block = [0; 64];
    for i in 0..64 {
        block[i] = octets[i % 8];
    }
    block
}
