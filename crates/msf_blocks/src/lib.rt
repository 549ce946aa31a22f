//! The container's blocks: the superblock both ways, the reserved blocks, and the edit of a stream.
#![tactic(auto)]

mod bits;
mod blocks;
mod edit;
mod superblock;

pub use crate::bits::{clear_bit, has_bit, set_bit};
pub use crate::blocks::{block_offset, blocks_of_size, is_block_size, map_blocks, reserved};
pub use crate::edit::Edit;
pub use crate::superblock::{SUPER_BYTES, Super, SuperFault, read_super, write_super};

#[cfg(test)]
mod tests;
