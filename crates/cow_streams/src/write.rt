ghost use Rattle.std.specs.Prelude.{◌≡◌};

use std::marker::Model;

/// A whole block that is to be written.
#[derive(Drop)]
pub struct BlockWrite {
    block: u32,
    bytes: Vec<u8>,
}

impl Model for BlockWrite {
    ghost use Rattle.cow_streams.specs.Planned.{Write};

    ghost Value = { Write };

    ghost view = { λ w. record { block = w.block; bytes = w.bytes.items } };
}

impl BlockWrite {
    pub fn new(block: u32, bytes: Vec<u8>) -> BlockWrite
        ensures { result ≡ record { block = block; bytes = bytes.items } }
    {
        BlockWrite { block, bytes }
    }

    /// The number of the block.
    pub fn block(&self) -> u32
        ensures { result ≡ self.now.block }
    {
        self.block
    }

    /// What the block is to hold.
    pub fn bytes(&self) -> &[u8]
        ensures { result.now ≡ self.now.bytes }
    {
        &self.bytes
    }
}
