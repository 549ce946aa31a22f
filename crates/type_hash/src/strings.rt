ghost use Rattle.std.specs.Prelude.{◌≡◌, ◌≤◌, ◌<◌, ◌+◌, length, fold, bit_xor};
ghost use Rattle.type_hash.specs.Hash.{finished_v1, mixed, string_v1_of, string_v2_of, words_and_bytes, words_and_halves};

use byteorder::{ByteOrder, LittleEndian};

/// The first version of the hash of names, by whole words. Upper and lower case are one.
#[tactic(auto, unfolding(crate::specs::Hash::string_v1_of, crate::specs::Hash::finished_v1))]
pub fn string_v1(bytes: &[u8]) -> u32
    ensures { result ≡ string_v1_of bytes.now }
{
    let x = joined(bytes) | 0x2020_2020;
    let x = x ^ (x >> 11);
    x ^ (x >> 16)
}

// The exclusive-or of the words and of what a rest is cut into.
fn joined(bytes: &[u8]) -> u32
    ensures { result ≡ fold bit_xor 0 (words_and_halves bytes.now) }
{
    let mut x = 0;
    let mut at = 0;
    while bytes.len() - at >= 4 {
        x ^= LittleEndian::read_u32(&bytes[at..]);
        at += 4;
    }
    joined_rest(x, &bytes[at..])
}

fn joined_rest(x: u32, rest: &[u8]) -> u32
    requires { length rest.now < 4 }
    ensures { result ≡ fold bit_xor x (words_and_halves rest.now) }
{
    match rest {
        [a] => x ^ u32::from(*a),
        [a, b] => x ^ u32::from(u16::from_le_bytes([*a, *b])),
        [a, b, c] => x ^ u32::from(u16::from_le_bytes([*a, *b])) ^ u32::from(*c),
        _ => x,
    }
}

/// The second version of the hash of names.
#[tactic(auto, unfolding(crate::specs::Hash::string_v2_of))]
pub fn string_v2(bytes: &[u8]) -> u32
    ensures { result ≡ string_v2_of bytes.now }
{
    all_mixed(bytes)
        .wrapping_mul(1_664_525)
        .wrapping_add(1_013_904_223)
}

fn all_mixed(bytes: &[u8]) -> u32
    ensures { result ≡ fold mixed 0xB170A1BF (words_and_bytes bytes.now) }
{
    let mut hash = 0xB170_A1BF;
    let mut at = 0;
    while bytes.len() - at >= 4 {
        hash = mix(hash, LittleEndian::read_u32(&bytes[at..]));
        at += 4;
    }
    mixed_rest(hash, &bytes[at..])
}

fn mixed_rest(hash: u32, rest: &[u8]) -> u32
    requires { length rest.now < 4 }
    ensures { result ≡ fold mixed hash (words_and_bytes rest.now) }
{
    match rest {
        [a] => mix(hash, u32::from(*a)),
        [a, b] => mix(mix(hash, u32::from(*a)), u32::from(*b)),
        [a, b, c] => mix(mix(mix(hash, u32::from(*a)), u32::from(*b)), u32::from(*c)),
        _ => hash,
    }
}

// The hash with one more word.
#[tactic(auto, unfolding(crate::specs::Hash::mixed))]
fn mix(hash: u32, word: u32) -> u32
    ensures { result ≡ mixed hash word }
{
    let added = hash.wrapping_add(word);
    let shifted = added.wrapping_add(added << 10);
    shifted ^ (shifted >> 6)
}
