//! The plan of edits.

ghost use Rattle.std.specs.Prelude.{◌≡◌, ◌≤◌, ◌<◌, ℕ, ◌+◌, ◌*◌, ◌/◌, ◌^◌, ◌++◌, ◌∷◌, All, IfOk, IsErrOf, drop, length, take};
ghost use Rattle.msf_blocks.specs.Superblock.{IsSuper};
ghost use Rattle.free_page_maps.specs.MapText.{map_text};
ghost use Rattle.msf_image.specs.Reads.{IsWhole, used_blocks};
ghost use Rattle.cow_streams.specs.declared.fault.Which.{Which};
ghost use Rattle.cow_streams.specs.Edits.{AreEdits};
ghost use Rattle.cow_streams.specs.Plan.{IsPlan};
ghost use Rattle.cow_streams.specs.Planned.{FitsDirectory, free_after, given_blocks, image_of, map_writes, new_blocks, new_dir_bytes, planned};

use crate::counting::{blocks_after, written_after};
use crate::fault::{PlanFault, Which};
use crate::freeing::free_but;
use crate::giving::{blocks_with, supply};
use crate::laying::lay_streams;
use crate::planned::Plan;
use crate::write::BlockWrite;
use crate::writing::{number_at, put_directory, put_map};
use free_page_maps::{FreeMap, other};
use msf_blocks::{Edit, Super, blocks_of_size};
use msf_image::Image;
use std::alloc::{AllocError, Global};
use stream_directory::Directory;

/// Plans edits of a file that reads as this superblock, directory and free blocks, and may have at
/// most so many blocks. No device is used. It takes memory for the bytes that are written, the
/// directory and the map.
pub fn plan(
    alloc: Global,
    head: &Super,
    directory: &Directory,
    free: &FreeMap,
    edits: &[Edit],
    limit: u32,
) -> Result<Plan, PlanFault>
    requires whole { IsWhole (image_of head.now directory.now free.now) }
    requires limited { head.now.blocks ≤ limit }
    requires most { limit ≤ 2 ^ 20 }
    requires edits { AreEdits head.now.block directory.now edits.now }
    requires short { new_dir_bytes (image_of head.now directory.now free.now) edits.now < 2 ^ 32 }
    // Which blocks are given, and what each gets.
    ensures planned { IfOk result
        (λ p. p ≡ planned (image_of head.now directory.now free.now) edits.now) }
    // What a writer may rest on.
    ensures sound { IfOk result
        (IsPlan limit (image_of head.now directory.now free.now) edits.now) }
    // It is refused exactly where a limit is passed, unless memory runs out.
    ensures fits { IfOk result
        (λ _. FitsDirectory (image_of head.now directory.now free.now) edits.now
        × (new_blocks (image_of head.now directory.now free.now) edits.now ≤ limit)) }
    ensures directory { (needed : ℕ) → IsErrOf result (PlanFault.Full Which.Directory needed)
        → (needed ≡ new_dir_bytes (image_of head.now directory.now free.now) edits.now)
        × (head.now.block * head.now.block / 4 < needed) }
    ensures blocks { (needed : ℕ) → IsErrOf result (PlanFault.Full Which.Blocks needed)
        → FitsDirectory (image_of head.now directory.now free.now) edits.now
        × (needed ≡ new_blocks (image_of head.now directory.now free.now) edits.now)
        × (limit < needed) }
{
    let blocks = blocks_after(head.block, edits, directory.streams()) as u32;
    let dir_bytes = 4 + 4 * directory.len() + 4 * blocks;
    if dir_bytes > head.block * head.block / 4 {
        return Err(PlanFault::Full {
            which: Which::Directory,
            needed: dir_bytes,
        });
    }
    let given = give(alloc, head, directory, free, edits, dir_bytes)?;
    let blocks = blocks_with(head.blocks, &given);
    if blocks > limit {
        return Err(PlanFault::Full {
            which: Which::Blocks,
            needed: blocks,
        });
    }
    Ok(lay_out(alloc, head, directory, free, edits, &given, dir_bytes)?)
}

// The blocks that are given: to the streams, the directory and the block map.
fn give(
    alloc: Global,
    head: &Super,
    directory: &Directory,
    free: &FreeMap,
    edits: &[Edit],
    dir_bytes: u32,
) -> Result<Vec<u32>, AllocError>
    requires whole { IsWhole (image_of head.now directory.now free.now) }
    requires few { head.now.blocks ≤ 2 ^ 20 }
    requires bytes { dir_bytes
        ≡ new_dir_bytes (image_of head.now directory.now free.now) edits.now }
    requires directory { FitsDirectory (image_of head.now directory.now free.now) edits.now }
    ensures given { IfOk result (λ given. given.items
        ≡ given_blocks (image_of head.now directory.now free.now) edits.now) }
    ensures small { IfOk result (λ given. All (λ b. b < 2 ^ 31) given.items) }
{
    let written = written_after(head.block, edits, directory.streams()) as u32;
    let count = written + blocks_of_size(head.block, dir_bytes) + 1;
    supply(alloc, head.block, free, count)
}

// The plan, where these blocks are given.
fn lay_out(
    alloc: Global,
    head: &Super,
    directory: &Directory,
    free: &FreeMap,
    edits: &[Edit],
    given: &[u32],
    dir_bytes: u32,
) -> Result<Plan, AllocError>
    requires whole { IsWhole (image_of head.now directory.now free.now) }
    requires edits { AreEdits head.now.block directory.now edits.now }
    requires bytes { dir_bytes
        ≡ new_dir_bytes (image_of head.now directory.now free.now) edits.now }
    requires directory { FitsDirectory (image_of head.now directory.now free.now) edits.now }
    requires given { given.now ≡ given_blocks (image_of head.now directory.now free.now) edits.now }
    requires few { new_blocks (image_of head.now directory.now free.now) edits.now ≤ 2 ^ 20 }
    requires small { All (λ b. b < 2 ^ 31) given.now }
    ensures { IfOk result (λ p. p ≡ planned (image_of head.now directory.now free.now) edits.now) }
{
    let count = blocks_of_size(head.block, dir_bytes) as usize;
    let written = given.len() - count - 1;
    let mut writes = Vec::with_capacity(alloc, given.len())?;
    let streams = lay_streams(
        alloc,
        head.block,
        edits,
        directory.streams(),
        given,
        &mut writes,
    )?;
    let new = Directory::new(streams);
    let listed = part_of(given, written, count);
    put_directory(alloc, head.block, &new, listed, given, &mut writes)?;
    let turned = Super {
        block: head.block,
        map: other(head.map),
        blocks: blocks_with(free.blocks(), given),
        dir_bytes,
        unknown: head.unknown,
        map_addr: number_at(given, written + count),
    };
    finish(alloc, turned, new, listed, writes)
}

// So many numbers of a list from one on.
fn part_of(numbers: &[u32], from: usize, count: usize) -> &[u32]
    requires { from + count ≤ length numbers.now }
    ensures { result.now ≡ take count (drop from numbers.now) }
{
    let (_, rest) = numbers.split_at(from);
    let (part, _) = rest.split_at(count);
    part
}

// The plan that ends with the free blocks and their map.
fn finish(
    alloc: Global,
    head: Super,
    directory: Directory,
    listed: &[u32],
    writes: Vec<BlockWrite>,
) -> Result<Plan, AllocError>
    requires passes { IsSuper head }
    requires inside { All (λ b. b < head.blocks)
        (used_blocks (head.map_addr ∷ listed.now) directory) }
    ensures image { IfOk result
        (λ p. p.image ≡ image_of head directory (free_after head listed.now directory)) }
    ensures writes { IfOk result (λ p. p.writes ≡ writes.items
        ++ map_writes head (map_text head.block (free_after head listed.now directory))) }
{
    let mut writes = writes;
    let free = free_but(
        alloc,
        head.block,
        head.blocks,
        head.map_addr,
        listed,
        directory.streams(),
    )?;
    let text = free.scatter(alloc, head.block)?;
    put_map(alloc, &head, &text, &mut writes)?;
    Ok(Plan::new(
        Image {
            head,
            directory,
            free,
        },
        writes,
    ))
}
