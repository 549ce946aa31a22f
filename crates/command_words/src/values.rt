//! The values of options and positionals.

ghost use Rattle.std.specs.Prelude.{◌≡◌, option_map, replicate};
ghost use Rattle.command_words.specs.Forms.{Answers};
ghost use Rattle.command_words.specs.Values.{block_size_of, guid_of, number_in, value_or};

use crate::plan::Usage;
use msf_blocks::is_block_size;

/// The number that a text writes, from one number to another.
pub(crate) fn number(text: &str, least: u32, most: u32) -> Result<u32, Usage>
    ensures { Answers (number_in least most text.now) result }
{
    // `parse` takes a plus sign and any number of digits.
    if text.is_empty() || text.len() > 10 || text.as_bytes()[0] == b'+' {
        return Err(Usage::NotAForm);
    }
    match text.parse::<u32>() {
        Ok(value) if least <= value && value <= most => Ok(value),
        _ => Err(Usage::NotAForm),
    }
}

/// The size of a file's blocks: 4096 where none is given.
pub(crate) fn block_size(text: Option<&str>) -> Result<u32, Usage>
    ensures { Answers (value_or 4096 block_size_of (option_map (λ t. t.now) text.entry)) result }
{
    let Some(text) = text else {
        return Ok(4096);
    };
    let size = number(text, 0, u32::MAX)?;
    if is_block_size(size) {
        Ok(size)
    } else {
        Err(Usage::NotAForm)
    }
}

/// The bytes of a GUID, which are zeros where none is given.
pub(crate) fn guid(text: Option<&str>) -> Result<[u8; 16], Usage>
    ensures { Answers (value_or (replicate 16 0) guid_of (option_map (λ t. t.now) text.entry)) result }
{
    let mut guid = [0; 16];
    let Some(text) = text else {
        return Ok(guid);
    };
    match hex::decode_to_slice(text, &mut guid) {
        Ok(()) => Ok(guid),
        Err(_) => Err(Usage::NotAForm),
    }
}

/// The number of an option, or the one that is taken where none is given.
pub(crate) fn number_or(
    text: Option<&str>,
    least: u32,
    most: u32,
    fallback: u32,
) -> Result<u32, Usage>
    ensures { Answers (value_or fallback (number_in least most)
        (option_map (λ t. t.now) text.entry)) result }
{
    match text {
        None => Ok(fallback),
        Some(text) => number(text, least, most),
    }
}
