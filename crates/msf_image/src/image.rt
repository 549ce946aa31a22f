ghost use Rattle.std.specs.Prelude.{◌≡◌, ◌≤◌, ◌*◌, ◌-◌, ℕ, IsTrue, List, [], Option, None, Some, length, slice_index_or, unwrap_or, IfOk, IsErrOf};
ghost use Rattle.srv_edge.specs.Count.{HasCause};
ghost use Rattle.srv_edge.specs.Reading.{OnlyReads};
ghost use Rattle.stream_directory.specs.Directory.{StreamBlocks, stream_at};
ghost use Rattle.msf_image.specs.declared.fault.DamageKind.{DamageKind};
ghost use Rattle.msf_image.specs.Reads.{HasBlocks, IsWhole, content_of};
ghost use Rattle.msf_image.specs.Relation.{Reads};

use crate::blocks::read_blocks;
use crate::fault::OpenFault;
use free_page_maps::FreeMap;
use msf_blocks::Super;
use srv_edge::Device;
use std::alloc::Global;
use stream_directory::Directory;

/// A file that was read as its container.
#[derive(Drop)]
pub struct Image {
    pub head: Super,
    pub directory: Directory,
    pub free: FreeMap,
}

impl Image {
    /// The content of a stream, by its number. An absent stream, one that is not there, and stream
    /// 0, of which no blocks are kept, give no bytes. It takes memory for the stream's blocks
    /// alone.
    pub fn read_stream<D: Device>(
        &self,
        alloc: Global,
        device: &mut D,
        stream: u32,
    ) -> Result<Vec<u8>, OpenFault>
        requires whole { IsWhole self.now }
        requires inside { IsTrue D.tells → HasBlocks (D.seen device.old) self.now.head }
        ensures content { IsTrue D.tells → IfOk result
            (λ bytes. bytes.items ≡ content_of (D.seen device.old) self.now.head
            (stream_at self.now.directory stream)) }
        // Of a file that reads as this image it is the stream's content.
        ensures stream { (limit : ℕ) (streams : List (Option (List ℕ))) → IsTrue D.tells
            → 1 ≤ stream → Reads (D.seen device.old) limit self.now streams → IfOk result
            (λ bytes. bytes.items ≡ unwrap_or (slice_index_or streams (stream - 1) None) []) }
        // Whatever the device tells, it has as many bytes as the directory says.
        ensures size { (s : StreamBlocks) → 1 ≤ stream
            → stream_at self.now.directory stream ≡ Some s
            → IfOk result (λ bytes. length bytes.items ≡ s.size) }
        ensures no_damage { (kind : DamageKind) (place : ℕ)
            → ¬ IsErrOf result (OpenFault.Damage kind place) }
        ensures disk_fault { HasCause (IsErrOf result OpenFault.DiskFault)
            (D.fault_count device.old) (D.fault_count device.new) }
        ensures only_reads { OnlyReads D.Device device.old device.new }
    {
        let Some(Some(kept)) = self.directory.streams().get(stream as usize) else {
            return Ok(Vec::new(alloc));
        };
        let mut bytes = read_blocks(alloc, device, self.head.block, kept.blocks())?;
        bytes.truncate(kept.size() as usize);
        Ok(bytes)
    }
}
