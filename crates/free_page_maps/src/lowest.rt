ghost use Rattle.std.specs.Prelude.{◌≡◌, ◌≤◌, ◌<◌, ℕ, ◌^◌, false, length, slice_index, MatchOption};
ghost use Rattle.msf_blocks.specs.Bits.{has_bit};
ghost use Rattle.free_page_maps.specs.Lowest.{IsFirstNonzero, IsLowestBit};

/// The lowest bit from a bit on that is 1.
pub fn lowest_bit(bits: &[u8], from: u32) -> Option<u64>
    requires { length bits.now < 2 ^ 32 }
    ensures { MatchOption result ((k : ℕ) → from ≤ k → has_bit bits.now k ≡ false)
        (IsLowestBit bits.now from) }
{
    let first = (from / 8) as usize;
    if first >= bits.len() {
        return None;
    }
    let high = bits[first] >> (from % 8);
    if high != 0 {
        return Some(u64::from(from) + u64::from(high.trailing_zeros()));
    }
    match first_nonzero(bits, first + 1) {
        Some(i) => Some(8 * i as u64 + u64::from(bits[i].trailing_zeros())),
        None => None,
    }
}

// The first place from a place on whose byte is not 0.
fn first_nonzero(bits: &[u8], from: usize) -> Option<usize>
    requires { from ≤ length bits.now }
    ensures { MatchOption result ((k : ℕ) → from ≤ k → slice_index bits.now k ≡ 0)
        (IsFirstNonzero bits.now from) }
{
    for i in from..bits.len() {
        if bits[i] != 0 {
            return Some(i);
        }
    }
    None
}
