//! Writes of whole blocks: the text of the directory, the block map, and the free block map.

ghost use Rattle.std.specs.Prelude.{◌≡◌, ◌≤◌, ◌<◌, ◌+◌, ◌*◌, ◌^◌, ◌++◌, ◌∷◌, [], IfOk, OnOk, drop, length, slice_index};
ghost use Rattle.std.specs.List.{flat_map};
ghost use Rattle.msf_blocks.specs.Blocks.{IsBlockSize, blocks_of_size};
ghost use Rattle.msf_blocks.specs.Superblock.{IsSuper};
ghost use Rattle.stream_directory.specs.Directory.{directory_text, word};
ghost use Rattle.msf_image.specs.Packed.{block_of};
ghost use Rattle.cow_streams.specs.Planned.{blocks_of, map_writes, writes_to};

use crate::write::BlockWrite;
use msf_blocks::{Super, blocks_of_size, map_blocks};
use msf_image::put_block;
use std::alloc::{AllocError, Global};
use stream_directory::{Directory, put_words, write_directory};

/// Block k of some bytes, filled up with zeros where it is the last.
pub fn cut_block(
    alloc: Global,
    block_size: u32,
    bytes: &[u8],
    k: u32,
) -> Result<Vec<u8>, AllocError>
    requires { IsBlockSize block_size }
    ensures { IfOk result (λ block. block.items ≡ block_of block_size bytes.now k) }
{
    let mut block = Vec::with_capacity(alloc, block_size as usize)?;
    put_block(&mut block, block_size, bytes, k)?;
    Ok(block)
}

/// Puts the text of the directory and the block map, which lists these blocks, behind the writes.
/// They take the given blocks that come next.
pub fn put_directory(
    alloc: Global,
    block_size: u32,
    directory: &Directory,
    listed: &[u32],
    given: &[u32],
    writes: &mut Vec<BlockWrite>,
) -> Result<(), AllocError>
    requires size { IsBlockSize block_size }
    requires short { length (directory_text directory.now) < 2 ^ 32 }
    requires some { 0 < length listed.now }
    requires one { 4 * length listed.now ≤ block_size }
    requires enough { length writes.old.items
        + blocks_of_size block_size (length (directory_text directory.now)) + 1
        ≤ length given.now }
    ensures { OnOk result (writes.new.items ≡ writes.old.items
        ++ writes_to (blocks_of block_size (directory_text directory.now)
        ++ block_of block_size (flat_map word listed.now) 0 ∷ [])
        (drop (length writes.old.items) given.now)) }
{
    let text = write_directory(alloc, directory)?;
    put_blocks(alloc, block_size, &text, given, writes)?;
    let mut numbers = Vec::with_capacity(alloc, 4 * listed.len())?;
    put_words(&mut numbers, listed)?;
    put_blocks(alloc, block_size, &numbers, given, writes)
}

/// The number at a place of a list.
pub fn number_at(numbers: &[u32], at: usize) -> u32
    requires { at < length numbers.now }
    ensures { result ≡ slice_index numbers.now at }
{
    numbers[at]
}

// Puts the blocks of some bytes behind the writes. They take the given blocks that come next.
fn put_blocks(
    alloc: Global,
    block_size: u32,
    bytes: &[u8],
    given: &[u32],
    writes: &mut Vec<BlockWrite>,
) -> Result<(), AllocError>
    requires size { IsBlockSize block_size }
    requires short { length bytes.now < 2 ^ 32 }
    requires enough { length writes.old.items + blocks_of_size block_size (length bytes.now)
        ≤ length given.now }
    ensures { OnOk result (writes.new.items ≡ writes.old.items
        ++ writes_to (blocks_of block_size bytes.now) (drop (length writes.old.items) given.now)) }
{
    let count = blocks_of_size(block_size, bytes.len() as u32);
    for k in 0..count {
        let b = number_at(given, writes.len());
        let block = cut_block(alloc, block_size, bytes, k)?;
        writes.push(BlockWrite::new(b, block))?;
    }
    Ok(())
}

/// Puts the blocks of the map of this superblock that carry meaning behind the writes, where the
/// map has this text.
pub fn put_map(
    alloc: Global,
    head: &Super,
    text: &[u8],
    writes: &mut Vec<BlockWrite>,
) -> Result<(), AllocError>
    requires { IsSuper head.now }
    ensures { OnOk result (writes.new.items ≡ writes.old.items ++ map_writes head.now text.now) }
{
    for j in 0..map_blocks(head.block, head.blocks) {
        let block = cut_block(alloc, head.block, text, j)?;
        writes.push(BlockWrite::new(head.map + j * head.block, block))?;
    }
    Ok(())
}
