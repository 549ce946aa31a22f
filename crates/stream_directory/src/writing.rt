ghost use Rattle.std.specs.Prelude.{◌≡◌, ℕ, ◌+◌, ◌*◌, ◌++◌, length, map, IfOk, OnOk};
ghost use Rattle.std.specs.List.{flat_map};
ghost use Rattle.stream_directory.specs.Directory.{Spells, blocks_in, directory_text, size_field, skipped_count, word};

use crate::directory::{ABSENT_SIZE, Directory, Stream};
use byteorder::{ByteOrder, LittleEndian};
use std::alloc::{AllocError, Global};

/// The text of a directory: how many streams there are, their sizes, and the blocks of each in order.
pub fn write_directory(alloc: Global, d: &Directory) -> Result<Vec<u8>, AllocError>
    ensures text { IfOk result (λ text. text.items ≡ directory_text d.now) }
    ensures len { IfOk result (λ text. length text.items
        ≡ 4 + 4 * length d.now + 4 * length (flat_map blocks_in d.now)) }
    // The text spells the directory, where stream 0 has no blocks.
    ensures spells { (block_size : ℕ) → skipped_count block_size (map size_field d.now) ≡ 0
        → IfOk result (λ text. Spells block_size text.items d.now) }
{
    put_directory(alloc, d)
}

#[tactic(auto, unfolding(crate::specs::Directory::directory_text))]
fn put_directory(alloc: Global, d: &Directory) -> Result<Vec<u8>, AllocError>
    ensures { IfOk result (λ text. text.items ≡ directory_text d.now) }
{
    let mut text = Vec::new(alloc);
    put_word(&mut text, d.len())?;
    put_sizes(&mut text, d.streams())?;
    put_blocks(&mut text, d.streams())?;
    Ok(text)
}

fn put_sizes(text: &mut Vec<u8>, streams: &[Option<Stream>]) -> Result<(), AllocError>
    ensures { OnOk result (text.new.items ≡ text.old.items
        ++ flat_map word (map size_field streams.now)) }
{
    for stream in streams {
        put_word(text, size_field(stream))?;
    }
    Ok(())
}

fn put_blocks(text: &mut Vec<u8>, streams: &[Option<Stream>]) -> Result<(), AllocError>
    ensures { OnOk result (text.new.items ≡ text.old.items
        ++ flat_map word (flat_map blocks_in streams.now)) }
{
    for stream in streams {
        if let Some(s) = stream {
            put_words(text, s.blocks())?;
        }
    }
    Ok(())
}

/// Puts numbers behind bytes, each as four bytes with the lowest first.
pub fn put_words(text: &mut Vec<u8>, words: &[u32]) -> Result<(), AllocError>
    ensures { OnOk result (text.new.items ≡ text.old.items ++ flat_map word words.now) }
{
    for n in words {
        put_word(text, *n)?;
    }
    Ok(())
}

fn put_word(text: &mut Vec<u8>, n: u32) -> Result<(), AllocError>
    ensures { OnOk result (text.new.items ≡ text.old.items ++ word n) }
{
    let mut bytes = [0; 4];
    LittleEndian::write_u32(&mut bytes, n);
    text.extend_from_slice(&bytes)
}

// What stands for a stream among the sizes.
fn size_field(stream: &Option<Stream>) -> u32
    ensures { result ≡ size_field stream.now }
{
    match stream {
        Some(s) => s.size(),
        None => ABSENT_SIZE,
    }
}
