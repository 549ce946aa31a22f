ghost use Rattle.std.specs.Prelude.{◌≡◌};
ghost use Rattle.msf_blocks.specs.Superblock.{superblock_text};

use crate::write::BlockWrite;
use msf_blocks::write_super;
use msf_image::Image;
use std::marker::Model;

/// What a commit writes, and the image that the file has then.
#[derive(Drop)]
pub struct Plan {
    image: Image,
    writes: Vec<BlockWrite>,
}

impl Model for Plan {
    ghost use Rattle.cow_streams.specs.Planned.{Planned};

    ghost Value = { Planned };

    ghost view = { λ p. record { image = p.image; writes = p.writes.items } };
}

impl Plan {
    pub fn new(image: Image, writes: Vec<BlockWrite>) -> Plan
        ensures { result ≡ record { image = image; writes = writes.items } }
    {
        Plan { image, writes }
    }

    /// The new superblock, directory and free blocks.
    pub fn image(&self) -> &Image
        ensures { result.now ≡ self.now.image }
    {
        &self.image
    }

    /// The whole blocks that are written before the new superblock: first the new blocks in rising
    /// number, then those of the free block map that becomes active.
    pub fn writes(&self) -> &[BlockWrite]
        ensures { result.now ≡ self.now.writes }
    {
        &self.writes
    }

    /// The text of the new superblock, which turns the file to the new image.
    pub fn head(&self) -> [u8; 56]
        ensures { result ≡ superblock_text self.now.image.head }
    {
        write_super(&self.image.head)
    }

    /// The image that the file has once the plan is written.
    pub fn into_image(self) -> Image
        ensures { result ≡ self.image }
    {
        self.image
    }
}
