//! The blocks that are free once others are used.

ghost use Rattle.std.specs.Prelude.{◌≡◌, ◌<◌, ℕ, ◌==◌, ◌++◌, ◌∷◌, not, All, IfOk};
ghost use Rattle.std.specs.List.{flat_map, list_any};
ghost use Rattle.msf_blocks.specs.Blocks.{IsBlockSize};
ghost use Rattle.free_page_maps.specs.FreeBlocks.{unreserved_where};
ghost use Rattle.stream_directory.specs.Directory.{blocks_in};
ghost use Rattle.msf_image.specs.Reads.{used_blocks};
ghost use Rattle.cow_streams.specs.Freeing.{without_all};

use free_page_maps::FreeMap;
use std::alloc::{AllocError, Global};
use stream_directory::Stream;

/// Every unreserved block of a file of so many that is none of these: the block map, the blocks of
/// the directory, and those of the streams.
pub fn free_but(
    alloc: Global,
    block_size: u32,
    blocks: u32,
    map_addr: u32,
    listed: &[u32],
    streams: &[Option<Stream>],
) -> Result<FreeMap, AllocError>
    requires size { IsBlockSize block_size }
    requires inside { All (λ b. b < blocks) (used_blocks (map_addr ∷ listed.now) streams.now) }
    ensures { IfOk result (λ free. free ≡ unreserved_where block_size blocks
        (λ b. not (list_any (λ x. x == b) (used_blocks (map_addr ∷ listed.now) streams.now)))) }
{
    let mut free = FreeMap::all_free(alloc, block_size, blocks)?;
    free.use_block(map_addr);
    use_all(&mut free, listed);
    use_streams(&mut free, streams);
    Ok(free)
}

// Makes blocks ones that are not free.
fn use_all(free: &mut FreeMap, blocks: &[u32])
    requires inside { All (λ b. b < free.old.blocks) blocks.now }
    ensures { free.new ≡ without_all free.old blocks.now }
{
    for b in blocks {
        free.use_block(*b);
    }
}

// Makes the blocks of streams ones that are not free.
fn use_streams(free: &mut FreeMap, streams: &[Option<Stream>])
    requires inside { All (λ b. b < free.old.blocks) (flat_map blocks_in streams.now) }
    ensures { free.new ≡ without_all free.old (flat_map blocks_in streams.now) }
{
    for stream in streams {
        if let Some(s) = stream {
            use_all(free, s.blocks());
        }
    }
}
