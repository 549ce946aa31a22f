ghost use Rattle.std.specs.Prelude.{◌≡◌, ◌+◌, ◌-◌, ◌*◌, ◌/◌, ◌^◌, ◌<◌};
ghost use Rattle.msf_blocks.specs.Blocks.{IsBlockSize, is_block_size, is_reserved, blocks_of_size, block_offset, map_blocks};

// The sizes that a block may have.
const BLOCK_SIZES: [u32; 7] = [512, 1024, 2048, 4096, 8192, 16_384, 32_768];

/// Whether a block may have this size. docs/FORMAT.md names the sizes.
pub fn is_block_size(size: u32) -> bool
    ensures { result ≡ is_block_size size }
{
    BLOCK_SIZES.contains(&size)
}

/// Whether a block is never given to a stream: block 0 with the superblock, and the blocks of both
/// free block maps.
pub fn reserved(block_size: u32, b: u32) -> bool
    requires { IsBlockSize block_size }
    ensures { result ≡ is_reserved block_size b }
{
    b == 0 || b % block_size == 1 || b % block_size == 2
}

/// How many blocks so many bytes take.
pub fn blocks_of_size(block_size: u32, size: u32) -> u32
    requires { IsBlockSize block_size }
    ensures { result ≡ blocks_of_size block_size size }
{
    size.div_ceil(block_size)
}

/// The first byte of a block in the file.
pub fn block_offset(block_size: u32, b: u32) -> u64
    requires { IsBlockSize block_size }
    ensures { result ≡ block_offset block_size b }
{
    u64::from(b) * u64::from(block_size)
}

/// How many blocks of a free block map carry meaning in a file of so many blocks.
pub fn map_blocks(block_size: u32, blocks: u32) -> u32
    requires { IsBlockSize block_size }
    ensures { result ≡ map_blocks block_size blocks }
{
    blocks.div_ceil(8 * block_size)
}
