ghost use Rattle.std.specs.Prelude.{◌≡◌, [], ◌∷◌, fold};
ghost use Rattle.type_hash.specs.Hash.{buffer_of, crc_byte};

use crate::rows::{row, row_before_one, row_before_three, row_before_two};

/// The cyclic redundancy check of 32 bits, begun with 0 and not inverted at its end.
#[tactic(auto, unfolding(crate::specs::Hash::buffer_of))]
pub fn buffer(bytes: &[u8]) -> u32
    ensures { result ≡ buffer_of bytes.now }
{
    let mut crc = 0;
    let mut at = 0;
    while bytes.len() - at >= 4 {
        crc = with_four(crc, bytes[at], bytes[at + 1], bytes[at + 2], bytes[at + 3]);
        at += 4;
    }
    with_rest(crc, &bytes[at..])
}

// The check with four more bytes, by one look-up for each.
fn with_four(crc: u32, first: u8, second: u8, third: u8, fourth: u8) -> u32
    ensures { result ≡ fold crc_byte crc (first ∷ second ∷ third ∷ fourth ∷ []) }
{
    let x = crc ^ u32::from_le_bytes([first, second, third, fourth]);
    row_before_three(x % 256)
        ^ row_before_two((x >> 8) % 256)
        ^ row_before_one((x >> 16) % 256)
        ^ row(x >> 24)
}

// The check with the bytes of a rest, one by one.
fn with_rest(crc: u32, rest: &[u8]) -> u32
    ensures { result ≡ fold crc_byte crc rest.now }
{
    let mut crc = crc;
    for byte in rest {
        crc = with_byte(crc, *byte);
    }
    crc
}

// The check with one more byte.
fn with_byte(crc: u32, byte: u8) -> u32
    ensures { result ≡ crc_byte crc byte }
{
    row((crc ^ u32::from(byte)) % 256) ^ (crc >> 8)
}
