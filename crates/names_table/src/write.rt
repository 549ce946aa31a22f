ghost use Rattle.std.specs.Prelude.{◌≡◌, ◌≤◌, ◌<◌, ℕ, ◌+◌, ◌^◌, [], ◌∷◌, ◌++◌, drop, length, take, IfOk, OnOk};
ghost use Rattle.std.specs.List.{flat_map};
ghost use Rattle.byteorder.specs.Endian.{little_bytes};
ghost use Rattle.srv_edge.specs.declared.limit.TheConstants.{MOST_NAME_BYTES};
ghost use Rattle.names_table.specs.Names.{bytes_of};
ghost use Rattle.names_table.specs.Text.{buckets_text, head_text, names_text};
ghost use Rattle.names_table.specs.declared.read.TheConstants.{HEADER_BYTES};

use crate::buckets::{bucket_count, buckets_of};
use crate::list::NameList;
use crate::read::{HEADER_BYTES, SIGNATURE};
use byteorder::{ByteOrder, LittleEndian};
use std::alloc::{AllocError, Global};

/// The header and the NUL of the empty name.
const FRONT_BYTES: usize = 13;

/// How many bytes the text of the stream `/names` has.
pub(crate) fn names_text_len(names: &NameList) -> u32
    requires { bytes_of names.now ≤ MOST_NAME_BYTES }
    ensures { (version : ℕ) → result ≡ length (names_text version names.now) }
{
    HEADER_BYTES + names.bytes() + 4 + 4 * bucket_count(names.len()) + 4
}

/// That text from a place on that is not behind the strings. All memory is
/// taken before the first byte is put.
pub(crate) fn names_text_from(
    alloc: Global,
    version: u32,
    names: &NameList,
    at: u32,
) -> Result<Vec<u8>, AllocError>
    requires few { bytes_of names.now ≤ MOST_NAME_BYTES }
    requires inside { at ≤ HEADER_BYTES + bytes_of names.now }
    ensures { IfOk result (λ text. text.items ≡ drop at (names_text version names.now)) }
{
    let buckets = buckets_of(alloc, version, names)?;
    let strings = names.strings();
    let size = FRONT_BYTES + strings.len() - at as usize + 4 + 4 * buckets.len() + 4;
    let mut text = Vec::with_capacity(alloc, size)?;
    let front = front_bytes(version, names.bytes());
    put_rest(&mut text, &front, strings, at as usize)?;
    put_buckets(&mut text, &buckets)?;
    put_word(&mut text, names.len())?;
    Ok(text)
}

/// So many of the first bytes of that text, none of which stands behind the strings.
pub(crate) fn names_text_first(
    alloc: Global,
    version: u32,
    names: &NameList,
    count: u32,
) -> Result<Vec<u8>, AllocError>
    requires few { bytes_of names.now ≤ MOST_NAME_BYTES }
    requires inside { count ≤ HEADER_BYTES + bytes_of names.now }
    ensures { IfOk result (λ text. text.items ≡ take count (names_text version names.now)) }
{
    let mut text = Vec::with_capacity(alloc, count as usize)?;
    let front = front_bytes(version, names.bytes());
    put_first(&mut text, &front, names.strings(), count as usize)?;
    Ok(text)
}

// So many of the first bytes of two runs that stand one behind the other.
fn put_first(text: &mut Vec<u8>, front: &[u8], back: &[u8], count: usize) -> Result<(), AllocError>
    requires { count ≤ length front.now + length back.now }
    ensures { OnOk result
        (text.new.items ≡ text.old.items ++ take count (front.now ++ back.now)) }
{
    if count <= front.len() {
        return text.extend_from_slice(&front[..count]);
    }
    text.extend_from_slice(front)?;
    text.extend_from_slice(&back[..count - front.len()])
}

// The bytes of two such runs from a place on.
fn put_rest(text: &mut Vec<u8>, front: &[u8], back: &[u8], at: usize) -> Result<(), AllocError>
    requires { at ≤ length front.now + length back.now }
    ensures { OnOk result (text.new.items ≡ text.old.items ++ drop at (front.now ++ back.now)) }
{
    if at >= front.len() {
        return text.extend_from_slice(&back[at - front.len()..]);
    }
    text.extend_from_slice(&front[at..])?;
    text.extend_from_slice(back)
}

// The header, where the strings have so many bytes, and the NUL of the empty name.
fn front_bytes(version: u32, size: u32) -> [u8; FRONT_BYTES]
    ensures { result ≡ head_text version size ++ 0 ∷ [] }
{
    let mut text = [0; FRONT_BYTES];
    LittleEndian::write_u32(&mut text[..4], SIGNATURE);
    LittleEndian::write_u32(&mut text[4..8], version);
    LittleEndian::write_u32(&mut text[8..12], size);
    text
}

// How many buckets there are, and the buckets.
fn put_buckets(text: &mut Vec<u8>, buckets: &[u32]) -> Result<(), AllocError>
    requires { length buckets.now < 2 ^ 32 }
    ensures { OnOk result (text.new.items ≡ text.old.items ++ buckets_text buckets.now) }
{
    put_word(text, buckets.len() as u32)?;
    put_words(text, buckets)
}

fn put_words(text: &mut Vec<u8>, words: &[u32]) -> Result<(), AllocError>
    ensures { OnOk result (text.new.items
        ≡ text.old.items ++ flat_map (little_bytes 4) words.now) }
{
    for n in words {
        put_word(text, *n)?;
    }
    Ok(())
}

fn put_word(text: &mut Vec<u8>, n: u32) -> Result<(), AllocError>
    ensures { OnOk result (text.new.items ≡ text.old.items ++ little_bytes 4 n) }
{
    let mut bytes = [0; 4];
    LittleEndian::write_u32(&mut bytes, n);
    text.extend_from_slice(&bytes)
}
