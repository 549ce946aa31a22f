ghost use Rattle.std.specs.Prelude.{◌≡◌, ◌<◌, ℕ, ◌+◌, ◌*◌, ◌&&◌, ◌==◌, not, length};
ghost use Rattle.std.specs.Int.{bit_at};
ghost use Rattle.msf_blocks.specs.Bits.{has_bit};
ghost use Rattle.msf_blocks.specs.Blocks.{IsBlockSize, is_reserved};

/// Makes the bits of all reserved blocks 0.
pub fn clear_reserved(bits: &mut [u8], block_size: u32)
    requires { IsBlockSize block_size }
    ensures { (b : ℕ)
        → has_bit bits.new b ≡ (not (is_reserved block_size b) && has_bit bits.old b) }
{
    for (i, byte) in bits.iter_mut().enumerate() {
        *byte &= unreserved_mask(block_size, i);
    }
}

// The byte at a place of a map that has 0 for each reserved block and 1 for each other.
fn unreserved_mask(block_size: u32, i: usize) -> u8
    requires { IsBlockSize block_size }
    ensures { (k : ℕ) → k < 8 → (bit_at result k == 1) ≡ not (is_reserved block_size (8 * i + k)) }
{
    if i == 0 {
        0xf8
    } else if i % (block_size / 8) as usize == 0 {
        0xf9
    } else {
        0xff
    }
}
