ghost use Rattle.std.specs.Prelude.{◌≡◌, ◌≤◌, ◌<◌, ◌++◌, [], List, Option, Ok, All, length, drop, IfOk, OnOk};
ghost use Rattle.std.specs.List.{sum_by};
ghost use Rattle.msf_blocks.specs.Blocks.{IsBlockSize};
ghost use Rattle.msf_blocks.specs.Judging.{Tells};
ghost use Rattle.msf_blocks.specs.Superblock.{IsSuper};
ghost use Rattle.stream_directory.specs.Directory.{IsDirectory, Spells, StreamBlocks, block_count};
ghost use Rattle.stream_directory.specs.Reading.{directory_damage, directory_of, reading, stream_of, streams_of};

use crate::directory::{ABSENT_SIZE, Directory, Stream};
use crate::fault::DirFault;
use crate::judging::judge;
use crate::layout::{block_count, parts_of, skipped_count, words_of};
use msf_blocks::Super;
use std::alloc::{AllocError, Global};

/// The directory that bytes spell in a file with this superblock. The block numbers of stream 0 have to be
/// there, and are not judged or kept.
pub fn read_directory(alloc: Global, bytes: &[u8], s: &Super) -> Result<Directory, DirFault>
    requires { IsSuper s.now }
    // What is read is a directory of this file, and is spelled so.
    ensures found { IfOk result (IsDirectory s.now []) }
    ensures spelled { IfOk result (Spells s.now.block bytes.now) }
    // What is spelled so is read, unless memory runs out.
    ensures only { (streams : List (Option StreamBlocks)) → IsDirectory s.now [] streams
        → Spells s.now.block bytes.now streams
        → Tells directory_damage (λ d. d) result (Ok streams) }
    // Which damage it is.
    ensures exact { Tells directory_damage (λ d. d) result (reading s.now [] bytes.now) }
{
    read_directory_behind(alloc, bytes, s, &[])
}

/// The same in a file that uses some blocks already, such as those of the directory itself: a stream that
/// has one of them uses it twice.
pub fn read_directory_behind(
    alloc: Global,
    bytes: &[u8],
    s: &Super,
    earlier: &[u32],
) -> Result<Directory, DirFault>
    requires superblock { IsSuper s.now }
    requires inside { All (λ b. b < s.now.blocks) earlier.now }
    ensures found { IfOk result (IsDirectory s.now earlier.now) }
    ensures spelled { IfOk result (Spells s.now.block bytes.now) }
    ensures only { (streams : List (Option StreamBlocks)) → IsDirectory s.now earlier.now streams
        → Spells s.now.block bytes.now streams
        → Tells directory_damage (λ d. d) result (Ok streams) }
    ensures exact { Tells directory_damage (λ d. d) result (reading s.now earlier.now bytes.now) }
{
    read_parts(alloc, bytes, s, earlier)
}

// The directory that bytes spell, or the first fault.
#[tactic(auto, unfolding(crate::specs::Reading::reading))]
fn read_parts(
    alloc: Global,
    bytes: &[u8],
    s: &Super,
    earlier: &[u32],
) -> Result<Directory, DirFault>
    requires superblock { IsSuper s.now }
    requires inside { All (λ b. b < s.now.blocks) earlier.now }
    ensures { Tells directory_damage (λ d. d) result (reading s.now earlier.now bytes.now) }
{
    let words = words_of(alloc, bytes)?;
    let (sizes, numbers) = parts_of(&words, bytes, s.block)?;
    let kept = &numbers[skipped_count(s.block, sizes) as usize..];
    judge(alloc, s, earlier, kept)?;
    let streams = directory_of(alloc, s.block, sizes, kept)?;
    Ok(Directory::new(streams))
}

// The streams of these sizes, with their blocks but for stream 0.
fn directory_of(
    alloc: Global,
    block_size: u32,
    sizes: &[u32],
    numbers: &[u32],
) -> Result<Vec<Option<Stream>>, AllocError>
    requires size { IsBlockSize block_size }
    requires enough { sum_by (block_count block_size) (drop 1 sizes.now) ≤ length numbers.now }
    ensures { IfOk result (λ streams. streams.items
        ≡ directory_of block_size sizes.now numbers.now) }
{
    let mut streams = Vec::with_capacity(alloc, sizes.len())?;
    if let Some((first, others)) = sizes.split_first() {
        streams.push(stream_of(alloc, *first, &[])?)?;
        push_streams(alloc, &mut streams, block_size, others, numbers)?;
    }
    Ok(streams)
}

// A stream of a size, if it is not absent.
fn stream_of(alloc: Global, size: u32, blocks: &[u32]) -> Result<Option<Stream>, AllocError>
    ensures { IfOk result (λ stream. stream ≡ stream_of size blocks.now) }
{
    if size == ABSENT_SIZE {
        return Ok(None);
    }
    Ok(Some(Stream::new(size, Vec::from_slice(alloc, blocks)?)))
}

// Puts further streams behind others.
fn push_streams(
    alloc: Global,
    streams: &mut Vec<Option<Stream>>,
    block_size: u32,
    sizes: &[u32],
    numbers: &[u32],
) -> Result<(), AllocError>
    requires size { IsBlockSize block_size }
    requires enough { sum_by (block_count block_size) sizes.now ≤ length numbers.now }
    ensures { OnOk result (streams.new.items ≡ streams.old.items
        ++ streams_of block_size sizes.now numbers.now) }
{
    let mut rest = numbers;
    for size in sizes {
        let (blocks, behind) = rest.split_at(block_count(block_size, *size) as usize);
        streams.push(stream_of(alloc, *size, blocks)?)?;
        rest = behind;
    }
    Ok(())
}
