//! Blocks of the file, read from the device.

ghost use Rattle.std.specs.Prelude.{◌≡◌, ◌≤◌, ◌<◌, ◌+◌, ◌*◌, ◌^◌, ◌++◌, IsTrue, All, length, IfOk, OnOk, IsErrOf};
ghost use Rattle.srv_edge.specs.Count.{HasCause};
ghost use Rattle.srv_edge.specs.Reading.{OnlyReads};
ghost use Rattle.msf_blocks.specs.Blocks.{IsBlockSize};
ghost use Rattle.msf_image.specs.Reads.{block_bytes, bytes_of_blocks};

use msf_blocks::block_offset;
use srv_edge::{Device, Failed};
use std::alloc::{AllocError, Global};

/// Why blocks were not read.
#[derive(Clone, Copy, Debug, PartialEq, Eq)]
pub enum ReadFault {
    Failed,
    OutOfMemory,
}

impl From<Failed> for ReadFault {
    ghost use Rattle.msf_image.specs.declared.blocks.ReadFault.TheVariants as fault;

    ghost from_gives = { λ _ e. e ≡ fault.Failed };

    fn from(_e: Failed) -> ReadFault {
        ReadFault::Failed
    }
}

impl From<AllocError> for ReadFault {
    ghost use Rattle.msf_image.specs.declared.blocks.ReadFault.TheVariants as fault;

    ghost from_gives = { λ _ e. e ≡ fault.OutOfMemory };

    fn from(_e: AllocError) -> ReadFault {
        ReadFault::OutOfMemory
    }
}

/// The bytes of blocks, joined.
pub fn read_blocks<D: Device>(
    alloc: Global,
    device: &mut D,
    block_size: u32,
    blocks: &[u32],
) -> Result<Vec<u8>, ReadFault>
    requires size { IsBlockSize block_size }
    requires few { length blocks.now ≤ 2 ^ 32 }
    requires inside { IsTrue D.tells
        → All (λ b. b * block_size + block_size ≤ length (D.seen device.old)) blocks.now }
    ensures len { IfOk result (λ bytes. length bytes.items ≡ length blocks.now * block_size) }
    ensures bytes { IsTrue D.tells → IfOk result
        (λ bytes. bytes.items ≡ bytes_of_blocks block_size (D.seen device.old) blocks.now) }
    ensures failed { HasCause (IsErrOf result ReadFault.Failed)
        (D.fault_count device.old) (D.fault_count device.new) }
    ensures only_reads { OnlyReads D.Device device.old device.new }
{
    let mut bytes = Vec::with_capacity(alloc, blocks.len() * block_size as usize)?;
    for b in blocks {
        read_block(device, block_size, *b, &mut bytes)?;
    }
    Ok(bytes)
}

// Puts the bytes of a block behind others.
fn read_block<D: Device>(
    device: &mut D,
    block_size: u32,
    b: u32,
    bytes: &mut Vec<u8>,
) -> Result<(), ReadFault>
    requires size { IsBlockSize block_size }
    requires inside { IsTrue D.tells → b * block_size + block_size ≤ length (D.seen device.old) }
    ensures len { OnOk result (length bytes.new.items ≡ length bytes.old.items + block_size) }
    ensures bytes { IsTrue D.tells → OnOk result
        (bytes.new.items ≡ bytes.old.items ++ block_bytes block_size (D.seen device.old) b) }
    ensures failed { HasCause (IsErrOf result ReadFault.Failed)
        (D.fault_count device.old) (D.fault_count device.new) }
    ensures only_reads { OnlyReads D.Device device.old device.new }
{
    let end = bytes.len();
    bytes.resize(end + block_size as usize, 0)?;
    device.read(block_offset(block_size, b), &mut bytes[end..])?;
    Ok(())
}
