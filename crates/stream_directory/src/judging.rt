//! Whether streams may have their blocks.

ghost use Rattle.std.specs.Prelude.{◌≡◌, ◌≤◌, ◌<◌, ℕ, ◌+◌, ◌/◌, ◌==◌, All, length, vec_len, IfOk};
ghost use Rattle.std.specs.List.{list_any};
ghost use Rattle.msf_blocks.specs.Bits.{has_bit};
ghost use Rattle.msf_blocks.specs.Blocks.{IsBlockSize};
ghost use Rattle.msf_blocks.specs.Judging.{Tells, unless};
ghost use Rattle.stream_directory.specs.Reading.{block_damage, directory_damage, first_bad};

use crate::fault::{DirDamage, DirFault};
use msf_blocks::{Super, has_bit, reserved, set_bit};
use std::alloc::{AllocError, Global};

/// Looks for the first block that is reserved, outside the file, or used already.
pub fn judge(alloc: Global, s: &Super, earlier: &[u32], blocks: &[u32]) -> Result<(), DirFault>
    requires size { IsBlockSize s.now.block }
    requires inside { All (λ b. b < s.now.blocks) earlier.now }
    ensures { Tells directory_damage (λ ok. ok) result
        (unless (first_bad s.now earlier.now blocks.now) tt) }
{
    let mut used = bits_of(alloc, s.blocks, earlier)?;
    for b in blocks {
        if let Some(damage) = block_damage(s, &used, *b) {
            return Err(DirFault::Damage(damage));
        }
        set_bit(&mut used, *b);
    }
    Ok(())
}

// The damage of a block.
fn block_damage(s: &Super, used: &[u8], b: u32) -> Option<DirDamage>
    requires size { IsBlockSize s.now.block }
    requires used { length used.now ≡ (s.now.blocks + 7) / 8 }
    ensures { result ≡ block_damage s.now (has_bit used.now b) b }
{
    if reserved(s.block, b) {
        Some(DirDamage::ReservedBlock { block: b })
    } else if b >= s.blocks {
        Some(DirDamage::OutsideFile { block: b })
    } else if has_bit(used, b) {
        Some(DirDamage::BlockTwice { block: b })
    } else {
        None
    }
}

// A bit for each block of a file, which is 1 where the block is among these.
fn bits_of(alloc: Global, blocks: u32, among: &[u32]) -> Result<Vec<u8>, AllocError>
    requires { All (λ b. b < blocks) among.now }
    ensures len { IfOk result (λ bits. vec_len bits ≡ (blocks + 7) / 8) }
    ensures bits { IfOk result (λ bits. (k : ℕ)
        → has_bit bits.items k ≡ list_any (λ b. b == k) among.now) }
{
    let mut bits = vec![in alloc; 0; blocks.div_ceil(8) as usize]?;
    for b in among {
        set_bit(&mut bits, *b);
    }
    Ok(bits)
}
