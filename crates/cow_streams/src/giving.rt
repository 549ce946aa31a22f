//! The blocks that a commit may take.

ghost use Rattle.std.specs.Prelude.{◌≡◌, ◌≤◌, ◌<◌, ◌+◌, ◌^◌, ◌++◌, All, IfOk, OnOk, length, take};
ghost use Rattle.std.specs.List.Sorted.{IsStrictlyIncreasing};
ghost use Rattle.msf_blocks.specs.Blocks.{IsBlockSize};
ghost use Rattle.cow_streams.specs.Supply.{blocks_with, next_unreserved, supply, unreserved_from};

use free_page_maps::FreeMap;
use std::alloc::{AllocError, Global};

/// So many blocks to give: the least free ones, and after those the next past the end.
#[tactic(auto, unfolding(crate::specs::Supply::supply))]
pub fn supply(
    alloc: Global,
    block_size: u32,
    free: &FreeMap,
    count: u32,
) -> Result<Vec<u32>, AllocError>
    requires size { IsBlockSize block_size }
    requires some { 1 ≤ free.now.blocks }
    requires few { free.now.blocks ≤ 2 ^ 20 }
    requires small { count ≤ 2 ^ 28 }
    requires rising { IsStrictlyIncreasing free.now.free }
    requires inside { All (λ b. b < free.now.blocks) free.now.free }
    ensures given { IfOk result (λ given. given.items
        ≡ supply block_size free.now.blocks free.now.free count) }
{
    let mut given = lowest(alloc, free, count)?;
    let left = count - given.len() as u32;
    push_past(&mut given, block_size, free.blocks(), left)?;
    Ok(given)
}

// So many of the least free blocks, or all of them.
fn lowest(alloc: Global, free: &FreeMap, count: u32) -> Result<Vec<u32>, AllocError>
    requires few { free.now.blocks ≤ 2 ^ 20 }
    requires rising { IsStrictlyIncreasing free.now.free }
    requires inside { All (λ b. b < free.now.blocks) free.now.free }
    ensures given { IfOk result (λ given. given.items ≡ take count free.now.free) }
{
    let mut given = Vec::with_capacity(alloc, count as usize)?;
    let mut from = 0;
    for i in 0..count {
        let Some(b) = free.lowest_free(from) else {
            return Ok(given);
        };
        given.push(b)?;
        from = b + 1;
    }
    Ok(given)
}

// Puts so many unreserved blocks from one on behind others.
fn push_past(
    given: &mut Vec<u32>,
    block_size: u32,
    first: u32,
    count: u32,
) -> Result<(), AllocError>
    requires size { IsBlockSize block_size }
    requires few { first ≤ 2 ^ 20 }
    requires small { count ≤ 2 ^ 28 }
    ensures { OnOk result (given.new.items ≡ given.old.items
        ++ unreserved_from block_size first count) }
{
    let mut end = first;
    for i in 0..count {
        let b = next_unreserved(block_size, end);
        given.push(b)?;
        end = b + 1;
    }
    Ok(())
}

// The least block from one on that is not reserved.
fn next_unreserved(block_size: u32, b: u32) -> u32
    requires size { IsBlockSize block_size }
    requires small { b < 2 ^ 31 }
    ensures next { result ≡ next_unreserved block_size b }
    ensures near { result ≤ b + 2 }
{
    if b % block_size == 1 {
        b + 2
    } else if b % block_size == 2 {
        b + 1
    } else {
        b
    }
}

/// How many blocks a file of so many has once these are given.
pub fn blocks_with(blocks: u32, given: &[u32]) -> u32
    requires small { All (λ b. b < 2 ^ 31) given.now }
    ensures { result ≡ blocks_with blocks given.now }
{
    let mut all = blocks;
    for b in given {
        if *b >= all {
            all = *b + 1;
        }
    }
    all
}
