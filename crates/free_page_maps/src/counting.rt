ghost use Rattle.std.specs.Prelude.{◌≡◌, ◌≤◌, ◌*◌, length};
ghost use Rattle.msf_blocks.specs.Bits.{has_bit};
ghost use Rattle.free_page_maps.specs.FreeBlocks.{below_where};

use msf_blocks::has_bit;

/// How many bits below a number are 1.
pub fn count_ones(bits: &[u8], below: u32) -> u32
    requires { below ≤ 8 * length bits.now }
    ensures { result ≡ length (below_where below (has_bit bits.now)) }
{
    let mut ones = 0;
    for b in 0..below {
        if has_bit(bits, b) {
            ones += 1;
        }
    }
    ones
}
