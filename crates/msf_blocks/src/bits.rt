ghost use Rattle.std.specs.Prelude.{◌≡◌, ◌≢◌, ◌<◌, ℕ, ◌/◌, true, false, length};
ghost use Rattle.msf_blocks.specs.Bits.{has_bit};

/// Whether a bit is 1. Bit b is bit b mod 8 of byte b div 8, and bit 0 of a byte has the value 1.
pub fn has_bit(bits: &[u8], b: u32) -> bool
    requires { b / 8 < length bits.now }
    ensures { result ≡ has_bit bits.now b }
{
    (bits[(b / 8) as usize] >> (b % 8)) & 1 == 1
}

/// Makes a bit 1.
pub fn set_bit(bits: &mut [u8], b: u32)
    requires { b / 8 < length bits.old }
    ensures set { has_bit bits.new b ≡ true }
    ensures others { (k : ℕ) → k ≢ b → has_bit bits.new k ≡ has_bit bits.old k }
{
    bits[(b / 8) as usize] |= 1 << (b % 8);
}

/// Makes a bit 0.
pub fn clear_bit(bits: &mut [u8], b: u32)
    requires { b / 8 < length bits.old }
    ensures cleared { has_bit bits.new b ≡ false }
    ensures others { (k : ℕ) → k ≢ b → has_bit bits.new k ≡ has_bit bits.old k }
{
    bits[(b / 8) as usize] &= !(1 << (b % 8));
}
