//! Whether edits may be planned.

ghost use Rattle.std.specs.Prelude.{◌≡◌, ◌≤◌, ◌<◌, ◌+◌, ◌*◌, ◌^◌, ℕ, IsTrue, Some, length};
ghost use Rattle.msf_blocks.specs.Blocks.{IsBlockSize};
ghost use Rattle.stream_directory.specs.Directory.{stream_at};
ghost use Rattle.msf_image.specs.Reads.{IsWhole};
ghost use Rattle.cow_streams.specs.Edits.{AreEdits, IsCovered, IsEdit};
ghost use Rattle.cow_streams.specs.Planned.{new_dir_bytes};

use crate::counting::blocks_after;
use crate::edits::{is_edited, len_after};
use msf_blocks::{Edit, block_offset, blocks_of_size};
use msf_image::Image;
use stream_directory::{ABSENT_SIZE, Directory, Stream};

/// Whether edits meet the conditions of a plan.
pub fn may_plan(image: &Image, edits: &[Edit]) -> bool
    requires { IsWhole image.now }
    ensures edits { IsTrue result → AreEdits image.now.head.block image.now.directory edits.now }
    ensures short { IsTrue result → new_dir_bytes image.now edits.now < 2 ^ 32 }
{
    is_short(image, edits)
        && edits
            .iter()
            .all(|e| is_edit(image.head.block, &image.directory, edits, e))
        && are_covered(image.head.block, edits, image.directory.streams())
}

fn is_short(image: &Image, edits: &[Edit]) -> bool
    requires { IsWhole image.now }
    ensures { IsTrue result → new_dir_bytes image.now edits.now < 2 ^ 32 }
{
    let blocks = blocks_after(image.head.block, edits, image.directory.streams());
    blocks < 1 << 30 && 4 + 4 * u64::from(image.directory.len()) + 4 * blocks < 1 << 32
}

fn is_edit(block_size: u32, directory: &Directory, edits: &[Edit], e: &Edit) -> bool
    requires { IsBlockSize block_size }
    ensures { IsTrue result → IsEdit block_size directory.now edits.now e.now }
{
    if e.bytes_len() > e.len() as usize {
        return false;
    }
    let end = u64::from(e.at()) + e.bytes_len() as u64;
    e.stream() >= 1
        && directory.size(e.stream()).is_some()
        && e.at() % block_size == 0
        && (end % u64::from(block_size) == 0 || end == u64::from(e.len()))
        && end <= u64::from(e.len())
        && e.len() < ABSENT_SIZE
        && len_after(edits, e.stream(), e.len()) == e.len()
}

// Whether each block of the new lengths that no edit has is one of the old stream.
fn are_covered(block_size: u32, edits: &[Edit], streams: &[Option<Stream>]) -> bool
    requires size { IsBlockSize block_size }
    requires few { length streams.now < 2 ^ 32 }
    ensures { IsTrue result → (i : ℕ) → 1 ≤ i
        → IsCovered block_size edits.now i (stream_at streams.now i) }
{
    for i in 1..streams.len() {
        if !is_covered(block_size, edits, i as u32, &streams[i]) {
            return false;
        }
    }
    true
}

fn is_covered(block_size: u32, edits: &[Edit], i: u32, stream: &Option<Stream>) -> bool
    requires { IsBlockSize block_size }
    ensures { IsTrue result → IsCovered block_size edits.now i stream.now }
{
    match stream {
        Some(s) => covers(block_size, edits, i, s),
        None => true,
    }
}

fn covers(block_size: u32, edits: &[Edit], i: u32, stream: &Stream) -> bool
    requires { IsBlockSize block_size }
    ensures { IsTrue result → IsCovered block_size edits.now i (Some stream.now) }
{
    let size = stream.size();
    let len = len_after(edits, i, size);
    if len <= size {
        return true;
    }
    let first = size / block_size;
    for k in first..blocks_of_size(block_size, len) {
        if !is_edited(edits, i, block_offset(block_size, k)) {
            return false;
        }
    }
    true
}
