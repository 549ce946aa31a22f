//! What the new directory needs.

ghost use Rattle.std.specs.Prelude.{◌≡◌, ◌≤◌, ◌<◌, ◌*◌, ◌^◌, length};
ghost use Rattle.std.specs.List.{list_any};
ghost use Rattle.msf_blocks.specs.Blocks.{IsBlockSize};
ghost use Rattle.cow_streams.specs.Layout.{all_parts, layout_of, layouts, parts_in, parts_to, pieces};

use crate::edits::{is_edited, len_after};
use msf_blocks::{Edit, block_offset, blocks_of_size};
use stream_directory::Stream;

/// How many blocks all streams have after the edits.
pub fn blocks_after(block_size: u32, edits: &[Edit], streams: &[Option<Stream>]) -> u64
    requires size { IsBlockSize block_size }
    requires few { length streams.now < 2 ^ 32 }
    ensures { result ≡ length (all_parts (layouts block_size edits.now streams.now)) }
{
    let mut sum = 0;
    for i in 1..streams.len() {
        sum += u64::from(blocks_of(block_size, edits, i as u32, &streams[i]));
    }
    sum
}

// How many blocks a stream has.
fn blocks_of(block_size: u32, edits: &[Edit], i: u32, stream: &Option<Stream>) -> u32
    requires size { IsBlockSize block_size }
    ensures { result ≡ length (parts_in (layout_of block_size edits.now i stream.now)) }
{
    match stream {
        Some(s) => blocks_of_size(block_size, len_after(edits, i, s.size())),
        None => 0,
    }
}

/// How many stream blocks are written.
pub fn written_after(block_size: u32, edits: &[Edit], streams: &[Option<Stream>]) -> u64
    requires size { IsBlockSize block_size }
    requires few { length streams.now < 2 ^ 32 }
    ensures { result ≡ length (pieces (all_parts (layouts block_size edits.now streams.now))) }
{
    let mut sum = 0;
    for i in 1..streams.len() {
        sum += u64::from(written_of(block_size, edits, i as u32, &streams[i]));
    }
    sum
}

// How many blocks of a stream are written.
fn written_of(block_size: u32, edits: &[Edit], i: u32, stream: &Option<Stream>) -> u32
    requires size { IsBlockSize block_size }
    ensures { result ≡ length (pieces (parts_in (layout_of block_size edits.now i stream.now))) }
{
    match stream {
        Some(s) => {
            let count = blocks_of_size(block_size, len_after(edits, i, s.size()));
            written_to(block_size, edits, i, s, count)
        }
        None => 0,
    }
}

// How many of the first blocks of a stream are written.
fn written_to(block_size: u32, edits: &[Edit], i: u32, stream: &Stream, count: u32) -> u32
    requires size { IsBlockSize block_size }
    ensures { result ≡ length (pieces (parts_to block_size edits.now i stream.now.blocks count)) }
{
    let mut written = 0;
    for k in 0..count {
        if is_edited(edits, i, block_offset(block_size, k)) {
            written += 1;
        }
    }
    written
}
