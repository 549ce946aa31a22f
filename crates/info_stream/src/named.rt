ghost use Rattle.std.specs.Prelude.{◌≡◌, ◌==◌, ◌≤◌, ◌<◌, ◌*◌, ◌^◌, find, length, count_ones, IfOk, IfSome};
ghost use Rattle.std.specs.List.{position, sum_by};
ghost use Rattle.std.specs.Option.{option_copied};
ghost use Rattle.msf_blocks.specs.Judging.{Tells};
ghost use Rattle.info_stream.specs.Named.{age_in, behind_guid, has_text, named_streams, pairs_of, stream_named, stream_of, text_at};
ghost use Rattle.info_stream.specs.Words.{words_in};

use crate::fault::InfoFault;
use crate::fields::{counted, field, number, numbers};
use byteorder::{ByteOrder, LittleEndian};

/// The number of the stream that the named stream map has for a name: of the first pair whose text
/// is whole and is the name. All pairs are read before.
#[tactic(auto, unfolding(crate::specs::Named::stream_named))]
pub fn find_stream(info: &[u8], name: &[u8]) -> Result<u32, InfoFault>
    ensures { result ≡ stream_named info.now name.now }
{
    let (texts, pairs) = named_streams(info)?;
    stream_in(texts, pairs, name)
}

/// The age of the file: how many commits made it, the first of which created it. None where the
/// stream is cut before it.
#[tactic(auto, unfolding(crate::specs::Named::age_in))]
pub fn age(info: &[u8]) -> Option<u32>
    ensures { result ≡ age_in info.now }
{
    if info.len() < 12 {
        return None;
    }
    Some(LittleEndian::read_u32(&info[8..]))
}

// The texts and the pairs of the named stream map.
#[tactic(auto, unfolding(crate::specs::Named::named_streams, crate::specs::Named::map_in))]
fn named_streams(info: &[u8]) -> Result<(&[u8], &[u8]), InfoFault>
    ensures { Tells Some (λ x. record { texts = x.0.now; pairs = pairs_of (words_in x.1.now) })
        result (named_streams info.now) }
{
    let whole = info.len() as u64;
    let rest = behind_guid(info)?;
    let (size, rest) = number(whole, rest)?;
    let (texts, rest) = field(whole, u64::from(size), rest)?;
    let (_count, rest) = number(whole, rest)?;
    let (_capacity, rest) = number(whole, rest)?;
    let (present, rest) = counted(whole, rest)?;
    let (_deleted, rest) = counted(whole, rest)?;
    let (pairs, _) = numbers(whole, 2 * ones_in(present), rest)?;
    Ok((texts, pairs))
}

// What stands behind the version, the signature, the age and the GUID.
#[tactic(auto, unfolding(crate::specs::Named::behind_guid))]
fn behind_guid(info: &[u8]) -> Result<&[u8], InfoFault>
    ensures exact { Tells Some (λ x. x.now) result (behind_guid info.now) }
    ensures rest { IfOk result (λ x. length x.now ≤ length info.now) }
{
    let whole = info.len() as u64;
    let (_version, rest) = number(whole, info)?;
    let (_signature, rest) = number(whole, rest)?;
    let (_age, rest) = number(whole, rest)?;
    let (_guid, rest) = field(whole, 16, rest)?;
    Ok(rest)
}

// How many bits of the words are 1.
fn ones_in(words: &[u8]) -> u64
    requires { length words.now < 2 ^ 34 }
    ensures ones { result ≡ sum_by count_ones (words_in words.now) }
    ensures few { result < 2 ^ 38 }
{
    let mut ones = 0;
    for i in 0..words.len() / 4 {
        ones += u64::from(LittleEndian::read_u32(&words[4 * i..]).count_ones());
    }
    ones
}

// The stream of the first pair that has the name.
fn stream_in(texts: &[u8], pairs: &[u8], name: &[u8]) -> Result<u32, InfoFault>
    ensures { result ≡ stream_of (find (λ pair. has_text texts.now name.now pair.0)
        (pairs_of (words_in pairs.now))) }
{
    for i in 0..pairs.len() / 8 {
        let at = LittleEndian::read_u32(&pairs[8 * i..]);
        if has_text(texts, name, at) {
            return Ok(LittleEndian::read_u32(&pairs[8 * i + 4..]));
        }
    }
    Err(InfoFault::NoName)
}

// Whether a whole text stands at a place, and is the name.
fn has_text(texts: &[u8], name: &[u8], at: u32) -> bool
    ensures { result ≡ has_text texts.now name.now at }
{
    match text_at(texts, at as usize) {
        Some(text) => text == name,
        None => false,
    }
}

// The bytes at a place before the first NUL from there on.
fn text_at(texts: &[u8], at: usize) -> Option<&[u8]>
    ensures { option_copied result ≡ text_at texts.now at }
{
    if at > texts.len() {
        return None;
    }
    let behind = &texts[at..];
    match text_len(behind) {
        Some(len) => Some(&behind[..len]),
        None => None,
    }
}

// How many bytes stand before the first NUL.
fn text_len(bytes: &[u8]) -> Option<usize>
    ensures value { result ≡ position (λ byte. byte == 0) bytes.now }
    ensures bound { IfSome result (λ len. len < length bytes.now) }
{
    bytes.iter().position(|byte| *byte == 0)
}
