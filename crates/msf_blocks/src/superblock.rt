ghost use Rattle.std.specs.Prelude.{◌≡◌, ◌≤◌, ◌<◌, ◌*◌, ◌/◌, Ok, take, length, IsTrue, IfOk};
ghost use Rattle.msf_blocks.specs.Judging.{first_damage, unless};
ghost use Rattle.msf_blocks.specs.Superblock.{IsSuper, has_magic, number_tests, numbers_of, superblock_text, superblock_told};

use crate::blocks::{block_offset, is_block_size, reserved};
use byteorder::{ByteOrder, LittleEndian};

/// The bytes of a superblock. It stands at the front of the file.
pub const SUPER_BYTES: usize = 56;

// The first 32 bytes of the file.
const MAGIC: &[u8; 32] = b"Microsoft C/C++ MSF 7.00\r\n\x1aDS\0\0\0";

/// The six numbers of a superblock. docs/FORMAT.md gives their places.
#[derive(Clone, Copy, Debug, PartialEq, Eq)]
pub struct Super {
    /// The bytes of a block.
    pub block: u32,
    /// The active free block map, 1 or 2.
    pub map: u32,
    /// The blocks of the file.
    pub blocks: u32,
    /// The bytes of the directory.
    pub dir_bytes: u32,
    /// A number without a known meaning, which is kept.
    pub unknown: u32,
    /// The block that lists the directory's blocks.
    pub map_addr: u32,
}

/// The first test that a superblock fails.
#[derive(Clone, Copy, Debug, PartialEq, Eq)]
pub enum SuperFault {
    /// The file has under 56 bytes, or does not begin with the magic.
    Magic,
    /// No block has this size.
    BlockSize,
    /// The active map is neither 1 nor 2.
    FreeMap,
    /// Too few blocks, too many, or more than the file has.
    Blocks,
    /// A directory too small, or with more blocks than one block can list.
    Directory,
    /// The directory's blocks are listed in a reserved block, or in none of the file.
    MapAddr,
}

/// The six numbers at the front of a file, given its first bytes, its length and the most blocks that it
/// may have; or the first test that they fail.
pub fn read_super(bytes: &[u8], file_len: u64, limit: u32) -> Result<Super, SuperFault>
    // What is read is a superblock, and is spelled so.
    ensures passes { IfOk result IsSuper }
    ensures text { IfOk result (λ s. take 56 bytes.now ≡ superblock_text s) }
    ensures limited { IfOk result (λ s. s.blocks ≤ limit) }
    ensures inside { IfOk result (λ s. s.blocks * s.block ≤ file_len) }
    // What is spelled so is read.
    ensures only { (s : Super) → IsSuper s → take 56 bytes.now ≡ superblock_text s
        → s.blocks ≤ limit → s.blocks * s.block ≤ file_len → result ≡ Ok s }
    // Which fault it is.
    ensures exact { result ≡ superblock_told bytes.now file_len limit }
{
    judged(bytes, file_len, limit)
}

/// The text of a superblock.
#[tactic(auto, unfolding(crate::specs::Superblock::superblock_text))]
pub fn write_super(s: &Super) -> [u8; 56]
    ensures { result ≡ superblock_text s.now }
{
    let mut text = [0; SUPER_BYTES];
    text[..32].copy_from_slice(MAGIC);
    LittleEndian::write_u32(&mut text[32..36], s.block);
    LittleEndian::write_u32(&mut text[36..40], s.map);
    LittleEndian::write_u32(&mut text[40..44], s.blocks);
    LittleEndian::write_u32(&mut text[44..48], s.dir_bytes);
    LittleEndian::write_u32(&mut text[48..52], s.unknown);
    LittleEndian::write_u32(&mut text[52..], s.map_addr);
    text
}

// The six numbers, or the first test that they fail.
fn judged(bytes: &[u8], file_len: u64, limit: u32) -> Result<Super, SuperFault>
    ensures { result ≡ superblock_told bytes.now file_len limit }
{
    if !begins_well(bytes, file_len) {
        return Err(SuperFault::Magic);
    }
    let s = numbers_of(bytes);
    judge(&s, file_len, limit)?;
    Ok(s)
}

// Whether a file has a superblock's bytes and begins with the magic.
#[tactic(auto, unfolding(crate::specs::Superblock::has_magic))]
fn begins_well(bytes: &[u8], file_len: u64) -> bool
    ensures test { result ≡ has_magic bytes.now file_len }
    ensures long { IsTrue result → 56 ≤ length bytes.now }
{
    file_len >= 56 && bytes.len() >= SUPER_BYTES && bytes.starts_with(MAGIC)
}

// The six numbers that bytes stand for.
fn numbers_of(bytes: &[u8]) -> Super
    requires { 56 ≤ length bytes.now }
    ensures { result ≡ numbers_of bytes.now }
{
    Super {
        block: LittleEndian::read_u32(&bytes[32..]),
        map: LittleEndian::read_u32(&bytes[36..]),
        blocks: LittleEndian::read_u32(&bytes[40..]),
        dir_bytes: LittleEndian::read_u32(&bytes[44..]),
        unknown: LittleEndian::read_u32(&bytes[48..]),
        map_addr: LittleEndian::read_u32(&bytes[52..]),
    }
}

// The tests of the six numbers in their order.
fn judge(s: &Super, file_len: u64, limit: u32) -> Result<(), SuperFault>
    ensures { result ≡ unless (first_damage (number_tests s.now file_len limit)) tt }
{
    if !is_block_size(s.block) {
        return Err(SuperFault::BlockSize);
    }
    if s.map != 1 && s.map != 2 {
        return Err(SuperFault::FreeMap);
    }
    if s.blocks < 4 || s.blocks > limit || block_offset(s.block, s.blocks) > file_len {
        return Err(SuperFault::Blocks);
    }
    let most = u64::from(s.block) * u64::from(s.block) / 4;
    if s.dir_bytes < 4 || u64::from(s.dir_bytes) > most {
        return Err(SuperFault::Directory);
    }
    if reserved(s.block, s.map_addr) || s.map_addr >= s.blocks {
        return Err(SuperFault::MapAddr);
    }
    Ok(())
}
