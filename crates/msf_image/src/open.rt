//! Opening: the superblock, the directory and the active free block map, each judged before what
//! stands behind it is read.

ghost use Rattle.std.specs.Prelude.{◌≡◌, ◌≤◌, ◌<◌, ◌+◌, ◌*◌, ◌^◌, IsTrue, false, All, Ok, [], ◌∷◌, find, length, take, drop, IfOk, OnOk, IsErrOf};
ghost use Rattle.std.specs.List.{flat_map};
ghost use Rattle.std.specs.List.Sorted.{IsStrictlyIncreasing};
ghost use Rattle.srv_edge.specs.Count.{HasCause};
ghost use Rattle.srv_edge.specs.Reading.{OnlyReads};
ghost use Rattle.msf_blocks.specs.Blocks.{IsReserved, blocks_of_size};
ghost use Rattle.msf_blocks.specs.Judging.{Tells};
ghost use Rattle.msf_blocks.specs.Superblock.{IsSuper, superblock_text};
ghost use Rattle.free_page_maps.specs.FreeBlocks.{is_free};
ghost use Rattle.stream_directory.specs.Directory.{AreUsable, IsDirectory, Spells, blocks_in};
ghost use Rattle.stream_directory.specs.Reading.{words_in};
ghost use Rattle.msf_image.specs.Faults.{damage_in};
ghost use Rattle.msf_image.specs.Reads.{HasBlocks, IsWhole, active_map_blocks, bytes_of_blocks, free_blocks_in, listed_blocks, read_file, streams_in, superblock_in, used_blocks, with_free};
ghost use Rattle.msf_image.specs.Relation.{Reads, contents_in};
ghost use Rattle.msf_image.specs.Spelled.{IsSpelled};

use crate::blocks::{ReadFault, read_blocks};
use crate::fault::{DamageKind, OpenFault};
use crate::image::Image;
use free_page_maps::FreeMap;
use msf_blocks::{SUPER_BYTES, Super, blocks_of_size, map_blocks, read_super};
use srv_edge::Device;
use std::alloc::{AllocError, Global};
use stream_directory::{Directory, Stream, judge, read_directory_behind, words_of};

/// Reads a file as its container, which may have at most so many blocks. Nothing is written. It
/// takes memory for one block, the directory and the map alone, whatever the file's length says.
pub fn open_image<D: Device>(alloc: Global, device: &mut D, limit: u32) -> Result<Image, OpenFault>
    // What is read is what the file reads as, and the damage is its first.
    ensures reads { IsTrue D.tells → Tells damage_in (λ image. image) result
        (read_file (D.seen device.old) limit) }
    ensures image { IsTrue D.tells → IfOk result
        (λ image. Reads (D.seen device.old) limit image (contents_in (D.seen device.old) image)) }
    ensures whole { IfOk result IsWhole }
    ensures spelled { IfOk result (λ image. IsSpelled image.head image.directory) }
    ensures limited { IfOk result (λ image. image.head.blocks ≤ limit) }
    ensures inside { IsTrue D.tells → IfOk result
        (λ image. HasBlocks (D.seen device.old) image.head) }
    ensures disk_fault { HasCause (IsErrOf result OpenFault.DiskFault)
        (D.fault_count device.old) (D.fault_count device.new) }
    ensures only_reads { OnlyReads D.Device device.old device.new }
{
    let head = read_head(device, limit)?;
    let listed = read_listed(alloc, device, &head)?;
    let directory = read_streams(alloc, device, &head, &listed)?;
    let free = read_free_blocks(alloc, device, &head)?;
    judge_used(
        Image {
            head,
            directory,
            free,
        },
        &listed,
    )
}

// The superblock, or the first test that it fails.
fn read_head<D: Device>(device: &mut D, limit: u32) -> Result<Super, OpenFault>
    ensures passes { IfOk result IsSuper }
    ensures limited { IfOk result (λ s. s.blocks ≤ limit) }
    ensures inside { IsTrue D.tells → IfOk result (HasBlocks (D.seen device.old)) }
    ensures text { IsTrue D.tells → IfOk result
        (λ s. take 56 (D.seen device.old) ≡ superblock_text s) }
    ensures reads { IsTrue D.tells → Tells damage_in (λ s. s) result
        (superblock_in (D.seen device.old) limit) }
    ensures disk_fault { HasCause (IsErrOf result OpenFault.DiskFault)
        (D.fault_count device.old) (D.fault_count device.new) }
    ensures only_reads { OnlyReads D.Device device.old device.new }
{
    let (bytes, len) = read_front(device)?;
    let head = read_super(&bytes, len, limit)?;
    Ok(head)
}

// The first bytes of the file, if it has so many, and its length.
fn read_front<D: Device>(device: &mut D) -> Result<([u8; SUPER_BYTES], u64), ReadFault>
    ensures len { IsTrue D.tells → IfOk result (λ front. front.1 ≡ length (D.seen device.old)) }
    ensures bytes { IsTrue D.tells → IfOk result
        (λ front. 56 ≤ front.1 → front.0 ≡ take 56 (D.seen device.old)) }
    ensures failed { HasCause (IsErrOf result ReadFault.Failed)
        (D.fault_count device.old) (D.fault_count device.new) }
    ensures only_reads { OnlyReads D.Device device.old device.new }
{
    let mut bytes = [0; SUPER_BYTES];
    let len = device.size()?;
    if len < SUPER_BYTES as u64 {
        return Ok((bytes, len));
    }
    device.read(0, &mut bytes)?;
    Ok((bytes, len))
}

// The block map and the blocks that it lists, in which the directory lies.
fn read_listed<D: Device>(
    alloc: Global,
    device: &mut D,
    head: &Super,
) -> Result<Vec<u32>, OpenFault>
    requires passes { IsSuper head.now }
    requires inside { IsTrue D.tells → HasBlocks (D.seen device.old) head.now }
    ensures used { IfOk result (λ listed. All (λ b. b < head.now.blocks) listed.items) }
    ensures usable { IfOk result (λ listed. AreUsable head.now [] listed.items) }
    ensures block_map { IfOk result (λ listed. listed.items
        ≡ head.now.map_addr ∷ drop 1 listed.items) }
    ensures count { IfOk result (λ listed. length listed.items
        ≡ 1 + blocks_of_size head.now.block head.now.dir_bytes) }
    ensures reads { IsTrue D.tells → Tells damage_in (λ listed. listed.items) result
        (listed_blocks (D.seen device.old) head.now) }
    ensures disk_fault { HasCause (IsErrOf result OpenFault.DiskFault)
        (D.fault_count device.old) (D.fault_count device.new) }
    ensures only_reads { OnlyReads D.Device device.old device.new }
{
    let block_map = read_blocks(alloc, device, head.block, &[head.map_addr])?;
    let listed = listed_in(alloc, head, &block_map)?;
    judge(alloc, head, &[], &listed)?;
    Ok(listed)
}

// The block map's own number, and the numbers at its front of the blocks in which the directory
// lies.
fn listed_in(alloc: Global, head: &Super, block_map: &[u8]) -> Result<Vec<u32>, AllocError>
    requires passes { IsSuper head.now }
    requires whole { length block_map.now ≡ head.now.block }
    ensures count { IfOk result (λ listed. length listed.items
        ≡ 1 + blocks_of_size head.now.block head.now.dir_bytes) }
    ensures listed { IfOk result (λ listed. listed.items
        ≡ head.now.map_addr ∷ take (blocks_of_size head.now.block head.now.dir_bytes)
        (words_in block_map.now)) }
{
    let words = words_of(alloc, block_map)?;
    let count = blocks_of_size(head.block, head.dir_bytes) as usize;
    let mut listed = Vec::with_capacity(alloc, 1 + count)?;
    listed.push(head.map_addr)?;
    listed.extend_from_slice(&words[..count])?;
    Ok(listed)
}

// The streams, each with the blocks that hold it, where these blocks are used already.
fn read_streams<D: Device>(
    alloc: Global,
    device: &mut D,
    head: &Super,
    listed: &[u32],
) -> Result<Directory, OpenFault>
    requires passes { IsSuper head.now }
    requires inside { IsTrue D.tells → HasBlocks (D.seen device.old) head.now }
    requires used { All (λ b. b < head.now.blocks) listed.now }
    requires count { length listed.now ≡ 1 + blocks_of_size head.now.block head.now.dir_bytes }
    ensures found { IfOk result (IsDirectory head.now listed.now) }
    ensures short { IfOk result (IsSpelled head.now) }
    ensures spelled { IsTrue D.tells → IfOk result (Spells head.now.block (take head.now.dir_bytes
        (bytes_of_blocks head.now.block (D.seen device.old) (drop 1 listed.now)))) }
    ensures reads { IsTrue D.tells → Tells damage_in (λ streams. streams) result
        (streams_in (D.seen device.old) head.now listed.now) }
    ensures disk_fault { HasCause (IsErrOf result OpenFault.DiskFault)
        (D.fault_count device.old) (D.fault_count device.new) }
    ensures only_reads { OnlyReads D.Device device.old device.new }
{
    let bytes = read_blocks(alloc, device, head.block, &listed[1..])?;
    let text = &bytes[..head.dir_bytes as usize];
    Ok(read_directory_behind(alloc, text, head, listed)?)
}

// The free blocks, as the active map tells them.
fn read_free_blocks<D: Device>(
    alloc: Global,
    device: &mut D,
    head: &Super,
) -> Result<FreeMap, OpenFault>
    requires passes { IsSuper head.now }
    requires inside { IsTrue D.tells → HasBlocks (D.seen device.old) head.now }
    ensures blocks { IfOk result (λ m. m.blocks ≡ head.now.blocks) }
    ensures inside { IfOk result (λ m. All (λ b. b < head.now.blocks) m.free) }
    ensures unreserved { IfOk result (λ m. All (λ b. ¬ IsReserved head.now.block b) m.free) }
    ensures rising { IfOk result (λ m. IsStrictlyIncreasing m.free) }
    ensures reads { IsTrue D.tells → Tells damage_in (λ free. free) result
        (Ok (free_blocks_in (D.seen device.old) head.now)) }
    ensures disk_fault { HasCause (IsErrOf result OpenFault.DiskFault)
        (D.fault_count device.old) (D.fault_count device.new) }
    ensures only_reads { OnlyReads D.Device device.old device.new }
{
    let blocks = active_map_blocks(alloc, head)?;
    let maps = read_blocks(alloc, device, head.block, &blocks)?;
    Ok(FreeMap::gather(alloc, head.block, head.blocks, &maps)?)
}

// The blocks of the active map that carry meaning.
fn active_map_blocks(alloc: Global, head: &Super) -> Result<Vec<u32>, AllocError>
    requires passes { IsSuper head.now }
    ensures few { IfOk result (λ blocks. length blocks.items ≤ 2 ^ 32) }
    ensures inside { IfOk result (λ blocks. All (λ b. b < head.now.blocks) blocks.items) }
    ensures enough { IfOk result
        (λ blocks. head.now.blocks ≤ 8 * (length blocks.items * head.now.block)) }
    ensures blocks { IfOk result (λ blocks. blocks.items ≡ active_map_blocks head.now) }
{
    let count = map_blocks(head.block, head.blocks);
    let mut blocks = Vec::with_capacity(alloc, count as usize)?;
    for j in 0..count {
        blocks.push(head.map + j * head.block)?;
    }
    Ok(blocks)
}

// The image, unless one of its used blocks is free.
#[tactic(auto, unfolding(crate::specs::Reads::with_free))]
fn judge_used(image: Image, listed: &[u32]) -> Result<Image, OpenFault>
    ensures told { Tells damage_in (λ image. image) result
        (with_free (used_blocks listed.now image.directory) image) }
    ensures same { IfOk result (λ judged. judged ≡ image) }
    ensures none_free { OnOk result (All (λ b. is_free image.free b ≡ false)
        (used_blocks listed.now image.directory)) }
    ensures no_fault { ¬ IsErrOf result OpenFault.DiskFault }
{
    match first_used_free(&image.free, listed, image.directory.streams()) {
        Some(b) => Err(OpenFault::Damage {
            kind: DamageKind::BlockFree,
            place: u64::from(b),
        }),
        None => Ok(image),
    }
}

// The first used block that is free.
fn first_used_free(free: &FreeMap, listed: &[u32], streams: &[Option<Stream>]) -> Option<u32>
    ensures { result ≡ find (is_free free.now) (used_blocks listed.now streams.now) }
{
    match first_free(free, listed) {
        Some(b) => Some(b),
        None => first_free_in(free, streams),
    }
}

// The first block of these streams that is free.
fn first_free_in(free: &FreeMap, streams: &[Option<Stream>]) -> Option<u32>
    ensures { result ≡ find (is_free free.now) (flat_map blocks_in streams.now) }
{
    for stream in streams {
        if let Some(b) = first_free(free, blocks_in(stream)) {
            return Some(b);
        }
    }
    None
}

// The blocks of a stream. An absent one has none.
fn blocks_in(stream: &Option<Stream>) -> &[u32]
    ensures { result.now ≡ blocks_in stream.now }
{
    match stream {
        Some(s) => s.blocks(),
        None => &[],
    }
}

// The first of these blocks that is free.
fn first_free(free: &FreeMap, blocks: &[u32]) -> Option<u32>
    ensures { result ≡ find (is_free free.now) blocks.now }
{
    blocks.iter().copied().find(|b| free.is_free(*b))
}
