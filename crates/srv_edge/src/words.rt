ghost use Rattle.std.specs.Prelude.{◌≡◌, ◌≤◌, ◌++◌, length, drop};
ghost use Rattle.srv_edge.specs.Frames.{half_bytes, word_bytes};

use byteorder::{ByteOrder, LittleEndian};

/// The number in the first four bytes, the lowest first.
pub fn word_at(bytes: &[u8]) -> u32
    requires { 4 ≤ length bytes.now }
    ensures { bytes.now ≡ word_bytes result ++ drop 4 bytes.now }
{
    LittleEndian::read_u32(bytes)
}

/// The four bytes of a number, the lowest first.
pub fn word(n: u32) -> [u8; 4]
    ensures { result ≡ word_bytes n }
{
    let mut bytes = [0; 4];
    LittleEndian::write_u32(&mut bytes, n);
    bytes
}

/// The number in the first two bytes, the lowest first.
pub fn half_at(bytes: &[u8]) -> u16
    requires { 2 ≤ length bytes.now }
    ensures { bytes.now ≡ half_bytes result ++ drop 2 bytes.now }
{
    LittleEndian::read_u16(bytes)
}

/// The two bytes of a number, the lowest first.
pub fn half(n: u16) -> [u8; 2]
    ensures { result ≡ half_bytes n }
{
    let mut bytes = [0; 2];
    LittleEndian::write_u16(&mut bytes, n);
    bytes
}
