//! The plan of a new file.

ghost use Rattle.std.specs.Prelude.{◌≡◌, ◌<◌, ◌^◌, ◌++◌, IfOk, OnOk, map};
ghost use Rattle.std.specs.List.{range_with_len};
ghost use Rattle.msf_blocks.specs.Blocks.{IsBlockSize};
ghost use Rattle.msf_image.specs.Packed.{IsPackable, present};
ghost use Rattle.cow_streams.specs.Packing.{given_write, new_plan};

use crate::planned::Plan;
use crate::write::BlockWrite;
use crate::writing::{cut_block, put_map};
use msf_image::{given_before, given_block, new_image};
use srv_edge::Text;
use std::alloc::{AllocError, Global};

/// The plan of the packed file of these streams, whose number without a known meaning is 0. It is
/// made as if map 2 were active, so that map 1 is written. It takes memory for the file and for all
/// streams once more.
pub fn new_plan(alloc: Global, block: u32, streams: &[Text]) -> Result<Plan, AllocError>
    requires { IsPackable block (present streams.now) }
    ensures { IfOk result (λ p. p ≡ new_plan block (present streams.now)) }
{
    let new = new_image(alloc, block, streams)?;
    let map = new.image.free.scatter(alloc, block)?;
    let mut writes = Vec::with_capacity(alloc, new.image.head.blocks as usize)?;
    let count = given_before(block, new.image.head.map_addr) + 1;
    put_given(alloc, block, &new.content, count, &mut writes)?;
    put_map(alloc, &new.image.head, &map, &mut writes)?;
    Ok(Plan::new(new.image, writes))
}

// Puts so many given blocks behind the writes, where they hold this.
fn put_given(
    alloc: Global,
    block: u32,
    content: &[u8],
    count: u32,
    writes: &mut Vec<BlockWrite>,
) -> Result<(), AllocError>
    requires size { IsBlockSize block }
    requires few { count < 2 ^ 30 }
    ensures { OnOk result (writes.new.items ≡ writes.old.items
        ++ map (given_write block content.now) (range_with_len 0 count)) }
{
    for k in 0..count {
        let bytes = cut_block(alloc, block, content, k)?;
        writes.push(BlockWrite::new(given_block(block, k), bytes))?;
    }
    Ok(())
}
