//! The packed file: streams in a file that has no free block. docs/FORMAT.md says where each block
//! stands.

ghost use Rattle.std.specs.Prelude.{◌≡◌, ◌≤◌, ◌<◌, ◌↔◌, ℕ, ◌+◌, ◌*◌, ◌^◌, ◌++◌, [], None, All, drop, length, replicate, slice_index_or, IsTrue, IfOk, OnOk};
ghost use Rattle.std.specs.List.{flat_map};
ghost use Rattle.msf_blocks.specs.Blocks.{IsBlockSize};
ghost use Rattle.msf_blocks.specs.Superblock.{superblock_text};
ghost use Rattle.free_page_maps.specs.MapText.{map_text};
ghost use Rattle.stream_directory.specs.Directory.{absent_size, word};
ghost use Rattle.msf_image.specs.Reads.{IsWhole};
ghost use Rattle.msf_image.specs.Relation.{Reads};
ghost use Rattle.msf_image.specs.Packed.{IsPackable, IsSmall, block_of, file_block, file_of, filled, given_block, given_before, given_from, none_of, packed_content, packed_file, packed_directory, packed_image, packed_listed, packed_map_addr, packed_super, present, stream_blocks, stream_bytes};

use crate::image::Image;
use free_page_maps::FreeMap;
use msf_blocks::{Super, blocks_of_size, is_block_size, write_super};
use srv_edge::Text;
use std::alloc::{AllocError, Global};
use stream_directory::{ABSENT_SIZE, Directory, Stream, put_words, write_directory};

// A packed file has no more blocks, and fewer streams.
const MOST_BLOCKS: u32 = 1_048_576;

const MOST_STREAMS: usize = 65_536;

/// The packed file of these streams, whose number without a known meaning is 0. It takes memory for
/// the file and for all streams once more.
pub fn new_file(alloc: Global, block: u32, streams: &[Text]) -> Result<Vec<u8>, AllocError>
    requires { IsPackable block (present streams.now) }
    ensures packed { IfOk result (λ file. file.items ≡ packed_file block 0 (present streams.now)) }
    // It reads as these streams, with no free block.
    ensures reads { (limit : ℕ) → (packed_super block 0 (present streams.now)).blocks ≤ limit
        → IfOk result (λ file. Reads file.items limit (packed_image block 0 (present streams.now))
        (drop 1 (present streams.now))) }
{
    lay_file(alloc, block, streams)
}

/// Whether a packed file can hold these streams.
pub fn is_packable(block: u32, streams: &[Text]) -> bool
    ensures { IsTrue result ↔ IsPackable block (present streams.now) }
{
    if !is_block_size(block) {
        return false;
    }
    if streams.len() >= MOST_STREAMS {
        return false;
    }
    if !begins_empty(streams) {
        return false;
    }
    if !are_short(streams) {
        return false;
    }
    is_small(block, streams.len() as u32, stream_blocks(block, streams))
}

// Whether stream 0, if there is one, is empty.
fn begins_empty(streams: &[Text]) -> bool
    ensures { IsTrue result ↔ (stream_bytes (slice_index_or (present streams.now) 0 None) ≡ []) }
{
    match streams.first() {
        Some(stream) => stream.bytes().is_empty(),
        None => true,
    }
}

// Whether each stream has a size that fits.
fn are_short(streams: &[Text]) -> bool
    ensures { IsTrue result ↔ All (λ stream. length stream < absent_size) streams.now }
{
    streams
        .iter()
        .all(|stream| stream.bytes().len() < ABSENT_SIZE as usize)
}

// Whether the directory and the file are not too large, where the streams have so many blocks.
fn is_small(block: u32, streams: u32, kept: u64) -> bool
    requires size { IsBlockSize block }
    requires few { streams < 2 ^ 16 }
    ensures { IsTrue result ↔ IsSmall block streams kept }
{
    if kept >= u64::from(MOST_BLOCKS) {
        return false;
    }
    let bytes = 4 + 4 * streams + 4 * kept as u32;
    let last = kept as u32 + blocks_of_size(block, bytes);
    bytes <= block * block / 4 && given_block(block, last) < MOST_BLOCKS
}

// How many blocks the streams have.
fn stream_blocks(block: u32, streams: &[Text]) -> u64
    requires size { IsBlockSize block }
    requires few { length streams.now < 2 ^ 16 }
    requires sizes { All (λ stream. length stream < absent_size) streams.now }
    ensures { result ≡ stream_blocks block (present streams.now) }
{
    let mut sum = 0;
    for stream in streams {
        sum += u64::from(blocks_of_size(block, stream.bytes().len() as u32));
    }
    sum
}

/// What a packed file reads as, and what its given blocks hold in their order.
#[derive(Drop)]
pub struct NewImage {
    pub image: Image,
    pub content: Vec<u8>,
}

/// The image of the packed file of these streams, whose number without a known meaning is 0, and
/// what its blocks hold. It takes memory for all streams.
pub fn new_image(alloc: Global, block: u32, streams: &[Text]) -> Result<NewImage, AllocError>
    requires { IsPackable block (present streams.now) }
    ensures image { IfOk result (λ new. new.image ≡ packed_image block 0 (present streams.now)) }
    ensures content { IfOk result (λ new. new.content.items
        ≡ packed_content block (present streams.now)) }
    ensures whole { IfOk result (λ new. IsWhole new.image) }
{
    let laid = lay_image(alloc, block, streams)?;
    let text = write_directory(alloc, &laid.image.directory)?;
    let content = content_of(
        alloc,
        block,
        laid.image.head.blocks,
        streams,
        &text,
        &laid.listed,
    )?;
    Ok(NewImage {
        image: laid.image,
        content,
    })
}

// What a packed file reads as, and the blocks in which its directory lies.
#[derive(Drop)]
struct Laid {
    image: Image,
    listed: Vec<u32>,
}

fn lay_image(alloc: Global, block: u32, streams: &[Text]) -> Result<Laid, AllocError>
    requires { IsPackable block (present streams.now) }
    ensures image { IfOk result (λ laid. laid.image ≡ packed_image block 0 (present streams.now)) }
    ensures listed { IfOk result (λ laid. laid.listed.items
        ≡ packed_listed block (present streams.now)) }
{
    let kept = stream_blocks(block, streams) as u32;
    let dir_bytes = 4 + 4 * streams.len() as u32 + 4 * kept;
    let count = blocks_of_size(block, dir_bytes);
    let map_addr = given_block(block, kept + count);
    let head = Super {
        block,
        map: 1,
        blocks: map_addr + 1,
        dir_bytes,
        unknown: 0,
        map_addr,
    };
    let directory = directory_of(alloc, block, streams)?;
    let listed = given_from(alloc, block, kept, count)?;
    let free = none_free(alloc, block, head.blocks)?;
    Ok(Laid {
        image: Image {
            head,
            directory,
            free,
        },
        listed,
    })
}

// The file of streams that it can hold.
fn lay_file(alloc: Global, block: u32, streams: &[Text]) -> Result<Vec<u8>, AllocError>
    requires { IsPackable block (present streams.now) }
    ensures { IfOk result (λ file. file.items ≡ packed_file block 0 (present streams.now)) }
{
    let new = new_image(alloc, block, streams)?;
    let map = new.image.free.scatter(alloc, block)?;
    file_of(alloc, &new.image.head, &map, &new.content)
}

// The directory: each stream with the blocks that come next.
fn directory_of(alloc: Global, block: u32, streams: &[Text]) -> Result<Directory, AllocError>
    requires { IsPackable block (present streams.now) }
    ensures { IfOk result (λ directory. directory ≡ packed_directory block (present streams.now)) }
{
    let mut all = Vec::with_capacity(alloc, streams.len())?;
    let mut next = 0;
    for stream in streams {
        let size = stream.bytes().len() as u32;
        let count = blocks_of_size(block, size);
        let blocks = given_from(alloc, block, next, count)?;
        all.push(Some(Stream::new(size, blocks)))?;
        next += count;
    }
    Ok(Directory::new(all))
}

// So many of the given blocks, from one on.
fn given_from(alloc: Global, block: u32, first: u32, count: u32) -> Result<Vec<u32>, AllocError>
    requires size { IsBlockSize block }
    requires few { first + count < 2 ^ 30 }
    ensures { IfOk result (λ blocks. blocks.items ≡ given_from block first count) }
{
    let mut blocks = Vec::with_capacity(alloc, count as usize)?;
    for i in 0..count {
        blocks.push(given_block(block, first + i))?;
    }
    Ok(blocks)
}

/// The block of a place among those that are given.
#[tactic(auto, unfolding(crate::specs::Packed::given_block))]
pub fn given_block(block: u32, k: u32) -> u32
    requires size { IsBlockSize block }
    requires few { k < 2 ^ 30 }
    ensures { result ≡ given_block block k }
{
    3 + k + 2 * (k / (block - 2))
}

// What the given blocks hold. It takes memory for so many blocks.
fn content_of(
    alloc: Global,
    block: u32,
    room: u32,
    streams: &[Text],
    text: &[u8],
    listed: &[u32],
) -> Result<Vec<u8>, AllocError>
    requires size { IsBlockSize block }
    requires sizes { All (λ stream. length stream < absent_size) streams.now }
    requires short { length text.now < absent_size }
    ensures { IfOk result (λ content. content.items ≡ flat_map (filled block) streams.now
        ++ (filled block text.now ++ flat_map word listed.now)) }
{
    let mut content = Vec::with_capacity(alloc, room as usize * block as usize)?;
    for stream in streams {
        put_filled(&mut content, block, stream.bytes())?;
    }
    put_filled(&mut content, block, text)?;
    put_words(&mut content, listed)?;
    Ok(content)
}

// Puts bytes behind others, filled up with zeros to whole blocks.
fn put_filled(content: &mut Vec<u8>, block: u32, bytes: &[u8]) -> Result<(), AllocError>
    requires size { IsBlockSize block }
    requires short { length bytes.now < absent_size }
    ensures { OnOk result (content.new.items ≡ content.old.items ++ filled block bytes.now) }
{
    let count = blocks_of_size(block, bytes.len() as u32);
    content.extend_from_slice(bytes)?;
    put_zeros(content, count as usize * block as usize - bytes.len())
}

// Puts so many zeros behind the bytes.
fn put_zeros(bytes: &mut Vec<u8>, count: usize) -> Result<(), AllocError>
    requires { count < 2 ^ 62 }
    ensures { OnOk result (bytes.new.items ≡ bytes.old.items ++ replicate count 0) }
{
    let end = bytes.len() + count;
    bytes.resize(end, 0)
}

// So many blocks of which none is free.
fn none_free(alloc: Global, block: u32, blocks: u32) -> Result<FreeMap, AllocError>
    requires size { IsBlockSize block }
    ensures { IfOk result (λ free. free ≡ none_of blocks) }
{
    let zeros = vec![in alloc; 0; blocks as usize / 8 + 1]?;
    FreeMap::gather(alloc, block, blocks, &zeros)
}

// The blocks of the file, joined.
#[tactic(auto, unfolding(crate::specs::Packed::file_of))]
fn file_of(alloc: Global, head: &Super, map: &[u8], content: &[u8]) -> Result<Vec<u8>, AllocError>
    requires size { IsBlockSize head.now.block }
    ensures { IfOk result (λ file. file.items
        ≡ file_of head.now.block (superblock_text head.now) map.now content.now head.now.blocks) }
{
    let text = write_super(head);
    let mut file = Vec::with_capacity(alloc, head.blocks as usize * head.block as usize)?;
    for b in 0..head.blocks {
        put_file_block(&mut file, head.block, &text, map, content, b)?;
    }
    Ok(file)
}

// Puts block b of the file behind the others.
#[tactic(auto, unfolding(crate::specs::Packed::file_block))]
fn put_file_block(
    file: &mut Vec<u8>,
    block: u32,
    head: &[u8],
    map: &[u8],
    content: &[u8],
    b: u32,
) -> Result<(), AllocError>
    requires size { IsBlockSize block }
    ensures { OnOk result (file.new.items ≡ file.old.items
        ++ file_block block head.now map.now content.now b) }
{
    if b == 0 {
        put_block(file, block, head, 0)
    } else if b % block == 1 {
        put_block(file, block, map, b / block)
    } else if b % block == 2 {
        put_block(file, block, &[], 0)
    } else {
        put_block(file, block, content, given_before(block, b))
    }
}

/// How many given blocks stand before one.
#[tactic(auto, unfolding(crate::specs::Packed::given_before))]
pub fn given_before(block: u32, b: u32) -> u32
    requires size { IsBlockSize block }
    requires least { 3 ≤ b }
    ensures { result ≡ given_before block b }
{
    b - 3 - 2 * ((b - 1) / block)
}

/// Puts block k of some bytes, cut into blocks of this size, behind others. The last block is filled up
/// with zeros.
#[tactic(auto, unfolding(crate::specs::Packed::block_of))]
pub fn put_block(file: &mut Vec<u8>, block: u32, bytes: &[u8], k: u32) -> Result<(), AllocError>
    requires size { IsBlockSize block }
    ensures { OnOk result (file.new.items ≡ file.old.items ++ block_of block bytes.now k) }
{
    let from = bytes.len().min(k as usize * block as usize);
    let to = bytes.len().min(from + block as usize);
    file.extend_from_slice(&bytes[from..to])?;
    put_zeros(file, block as usize - (to - from))
}
