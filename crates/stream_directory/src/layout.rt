//! The parts of a directory's text.

ghost use Rattle.std.specs.Prelude.{◌≡◌, ◌≤◌, ◌<◌, ◌+◌, ◌*◌, ◌/◌, ◌^◌, length, drop, IfOk};
ghost use Rattle.std.specs.List.{sum_by};
ghost use Rattle.msf_blocks.specs.Blocks.{IsBlockSize};
ghost use Rattle.msf_blocks.specs.Judging.{Tells};
ghost use Rattle.stream_directory.specs.Directory.{block_count, skipped_count};
ghost use Rattle.stream_directory.specs.Reading.{fields_at, parts_of, words_in};

use crate::directory::ABSENT_SIZE;
use crate::fault::DirDamage;
use byteorder::{ByteOrder, LittleEndian};
use msf_blocks::blocks_of_size;
use std::alloc::{AllocError, Global};

/// The whole numbers of four bytes in the bytes.
pub fn words_of(alloc: Global, bytes: &[u8]) -> Result<Vec<u32>, AllocError>
    ensures { IfOk result (λ words. words.items ≡ words_in bytes.now) }
{
    let mut words = Vec::with_capacity(alloc, bytes.len() / 4)?;
    for i in 0..bytes.len() / 4 {
        words.push(LittleEndian::read_u32(&bytes[4 * i..]))?;
    }
    Ok(words)
}

/// How many blocks a stream has by its size.
pub fn block_count(block_size: u32, size: u32) -> u32
    requires { IsBlockSize block_size }
    ensures { result ≡ block_count block_size size }
{
    if size == ABSENT_SIZE {
        0
    } else {
        blocks_of_size(block_size, size)
    }
}

/// How many of the block numbers are those of stream 0.
pub fn skipped_count(block_size: u32, sizes: &[u32]) -> u32
    requires { IsBlockSize block_size }
    ensures { result ≡ skipped_count block_size sizes.now }
{
    match sizes {
        [] => 0,
        [size, ..] => block_count(block_size, *size),
    }
}

/// The sizes and the block numbers among all words of a text of so many bytes.
#[tactic(auto, unfolding(crate::specs::Reading::parts_of))]
pub fn parts_of<'a>(
    words: &'a [u32],
    bytes: &[u8],
    block_size: u32,
) -> Result<(&'a [u32], &'a [u32]), DirDamage>
    requires size { IsBlockSize block_size }
    requires words { words.now ≡ words_in bytes.now }
    ensures few { IfOk result (λ x. length x.0.now < 2 ^ 32) }
    ensures count { IfOk result (λ x. length x.1.now ≡ sum_by (block_count block_size) x.0.now) }
    ensures exact { Tells Some (λ x. (x.0.now, x.1.now)) result (parts_of block_size bytes.now) }
{
    let (count, rest) = fields_at(words, 0, 1)?;
    let (sizes, rest) = fields_at(rest, 4, u64::from(count[0]))?;
    let behind = 4 + 4 * sizes.len() as u64;
    let (numbers, _) = fields_at(rest, behind, sum_of_counts(block_size, sizes))?;
    let end = behind + 4 * numbers.len() as u64;
    if end != bytes.len() as u64 {
        return Err(DirDamage::Extra { at: end });
    }
    Ok((sizes, numbers))
}

// So many fields from a place of the text on, and the words behind them.
fn fields_at(words: &[u32], at: u64, n: u64) -> Result<(&[u32], &[u32]), DirDamage>
    requires { at + 4 * length words.now < 2 ^ 64 }
    ensures count { IfOk result (λ x. length x.0.now ≡ n) }
    ensures exact { Tells Some (λ x. (x.0.now, x.1.now)) result (fields_at at n words.now) }
{
    if n > words.len() as u64 {
        return Err(DirDamage::Short {
            at: at + 4 * words.len() as u64,
        });
    }
    Ok(words.split_at(n as usize))
}

// How many blocks streams of these sizes have.
fn sum_of_counts(block_size: u32, sizes: &[u32]) -> u64
    requires size { IsBlockSize block_size }
    requires few { length sizes.now < 2 ^ 32 }
    ensures { result ≡ sum_by (block_count block_size) sizes.now }
{
    let mut sum = 0;
    for size in sizes {
        sum += u64::from(block_count(block_size, *size));
    }
    sum
}
