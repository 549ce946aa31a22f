ghost use Rattle.std.specs.Prelude.{◌≡◌, ◌≤◌, ◌+◌, ◌*◌, ◌/◌, ◌||◌, nat_le, length, map, IfOk};
ghost use Rattle.std.specs.List.{range_with_len};
ghost use Rattle.msf_blocks.specs.Bits.{has_bit};
ghost use Rattle.free_page_maps.specs.MapText.{number_where};

use std::alloc::{AllocError, Global};

/// So many bytes: the bits below a number of blocks as they stand, and ones from there on.
pub fn padded(alloc: Global, bits: &[u8], blocks: u32, bytes: usize) -> Result<Vec<u8>, AllocError>
    requires { blocks ≤ 8 * length bits.now }
    ensures { IfOk result (λ maps. maps.items ≡ map
        (λ i. number_where 8 (λ k. nat_le blocks (8 * i + k) || has_bit bits.now (8 * i + k)))
        (range_with_len 0 bytes)) }
{
    let mut maps = Vec::with_capacity(alloc, bytes)?;
    for i in 0..bytes {
        maps.push(padded_byte(bits, blocks, i))?;
    }
    Ok(maps)
}

// One byte of them.
fn padded_byte(bits: &[u8], blocks: u32, i: usize) -> u8
    requires { blocks ≤ 8 * length bits.now }
    ensures { result
        ≡ number_where 8 (λ k. nat_le blocks (8 * i + k) || has_bit bits.now (8 * i + k)) }
{
    let whole = (blocks / 8) as usize;
    let rest = blocks % 8;
    if i < whole {
        bits[i]
    } else if i == whole && rest != 0 {
        bits[i] | 0xff << rest
    } else {
        0xff
    }
}
