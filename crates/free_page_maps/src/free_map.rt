ghost use Rattle.std.specs.Prelude.{◌≡◌, ◌≤◌, ◌<◌, ℕ, ◌*◌, true, false, length, All, IfOk, MatchOption};
ghost use Rattle.msf_blocks.specs.Blocks.{IsBlockSize, IsMap, IsReserved};
ghost use Rattle.free_page_maps.specs.FreeBlocks.{IsLeastFree, free_in, is_free, unreserved_where, without};
ghost use Rattle.free_page_maps.specs.MapText.{map_text};

use crate::counting::count_ones;
use crate::lowest::lowest_bit;
use crate::padding::padded;
use crate::reserved::clear_reserved;
use msf_blocks::{clear_bit, has_bit, map_blocks};
use std::alloc::{AllocError, Global};
use std::marker::Model;

/// The free blocks of a file, one bit for each block.
#[derive(Drop)]
pub struct FreeMap {
    bits: Vec<u8>,
    blocks: u32,
}

impl Model for FreeMap {
    ghost use Rattle.std.specs.Prelude.{◌≡◌, ◌+◌, ◌/◌, vec_len};
    ghost use Rattle.msf_blocks.specs.Bits.{has_bit};
    ghost use Rattle.free_page_maps.specs.FreeBlocks.{FreeBlocks, below_where};

    ghost Value = { FreeBlocks };

    ghost view = { λ m. record {
      blocks = m.blocks;
      free = below_where m.blocks
          (has_bit m.bits.items);
    } };

    ghost invariant = { λ m. vec_len m.bits ≡ (m.blocks + 7) / 8 };
}

impl FreeMap {
    /// Reads the joined blocks of a map in a file of so many blocks. Bits of reserved blocks and bits
    /// past the last block are not judged.
    pub fn gather(
        alloc: Global,
        block_size: u32,
        blocks: u32,
        maps: &[u8],
    ) -> Result<FreeMap, AllocError>
        requires size { IsBlockSize block_size }
        requires bits { blocks ≤ 8 * length maps.now }
        ensures free { IfOk result (λ m. m ≡ free_in block_size blocks maps.now) }
        ensures unreserved { IfOk result (λ m. All (λ b. ¬ IsReserved block_size b) m.free) }
    {
        let bytes = blocks.div_ceil(8) as usize;
        let mut bits = Vec::from_slice(alloc, &maps[..bytes])?;
        clear_reserved(&mut bits, block_size);
        Ok(FreeMap { bits, blocks })
    }

    /// The map of a file in which no block is used.
    pub fn all_free(alloc: Global, block_size: u32, blocks: u32) -> Result<FreeMap, AllocError>
        requires { IsBlockSize block_size }
        ensures free { IfOk result (λ m. m ≡ unreserved_where block_size blocks (λ _. true)) }
        ensures unreserved { IfOk result (λ m. All (λ b. ¬ IsReserved block_size b) m.free) }
    {
        let ones = vec![in alloc; 0xff; blocks.div_ceil(8) as usize]?;
        FreeMap::gather(alloc, block_size, blocks, &ones)
    }

    /// Writes the joined blocks of the map that carry meaning.
    pub fn scatter(&self, alloc: Global, block_size: u32) -> Result<Vec<u8>, AllocError>
        requires size { IsBlockSize block_size }
        requires unreserved { All (λ b. ¬ IsReserved block_size b) self.now.free }
        ensures text { IfOk result (λ maps. maps.items ≡ map_text block_size self.now) }
        // What is written is read again as the same map.
        ensures again { IfOk result
            (λ maps. free_in block_size self.now.blocks maps.items ≡ self.now) }
    {
        let bytes = map_blocks(block_size, self.blocks) as usize * block_size as usize;
        let maps = padded(alloc, &self.bits, self.blocks, bytes)?;
        Ok(maps)
    }

    /// The blocks of the file.
    pub fn blocks(&self) -> u32
        ensures { result ≡ self.now.blocks }
    {
        self.blocks
    }

    /// How many blocks are free.
    pub fn len(&self) -> u32
        ensures { result ≡ length self.now.free }
    {
        count_ones(&self.bits, self.blocks)
    }

    /// Whether a block is free.
    pub fn is_free(&self, b: u32) -> bool
        ensures { result ≡ is_free self.now b }
    {
        b < self.blocks && has_bit(&self.bits, b)
    }

    /// Makes a block of the file one that is not free.
    pub fn use_block(&mut self, b: u32)
        requires { b < self.old.blocks }
        ensures { self.new ≡ without self.old b }
    {
        clear_bit(&mut self.bits, b);
    }

    /// The least free block from a block on.
    pub fn lowest_free(&self, from: u32) -> Option<u32>
        ensures { MatchOption result ((b : ℕ) → from ≤ b → is_free self.now b ≡ false)
            (IsLeastFree self.now from) }
    {
        let blocks = u64::from(self.blocks);
        match lowest_bit(&self.bits, from) {
            Some(b) if b < blocks => Some(b as u32),
            _ => None,
        }
    }
}

/// The map that is not this one.
pub fn other(map: u32) -> u32
    requires { IsMap map }
    ensures first { map ≡ 1 → result ≡ 2 }
    ensures second { map ≡ 2 → result ≡ 1 }
{
    3 - map
}
