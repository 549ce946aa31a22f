//! The content of one stream of a file that is opened.

ghost use Rattle.std.specs.Prelude.{◌≡◌, ◌≤◌, ◌<◌, IsTrue, Some, length, IfOk, IsErrOf};
ghost use Rattle.srv_edge.specs.Count.{HasCause};
ghost use Rattle.msf_blocks.specs.Judging.{Tells};
ghost use Rattle.msf_image.specs.Faults.{damage_in};
ghost use Rattle.committer.specs.Stored.{IsSettledFile, newest};
ghost use Rattle.type_store.specs.Commits.{contents_of};
ghost use Rattle.type_store.specs.Holds.{content_at, there};
ghost use Rattle.type_store.specs.Opening.{OnlyReadsStore, is_apart_in, size_in};

use committer::Store;
use msf_image::{Damage, OpenFault};
use srv_edge::Device;
use std::alloc::Global;

/// The content of a stream, or this damage where it is not there.
pub(crate) fn read_content<D: Device>(
    alloc: Global,
    store: &mut Store<D>,
    number: u32,
    absent: Damage,
) -> Result<Vec<u8>, OpenFault>
    requires settled { IsSettledFile store.old.file }
    requires behind_first { 1 ≤ number }
    ensures told { IsTrue D.tells → Tells damage_in (λ bytes. bytes.items) result
        (there absent (content_at
        (contents_of (D.seen store.old.device) (newest store.old.file)) number)) }
    ensures size { IfOk result (λ bytes. size_in (newest store.old.file).directory number
        ≡ Some (length bytes.items)) }
    ensures only_reads { OnlyReadsStore D.Device store.old store.new }
    ensures disk_fault { HasCause (IsErrOf result OpenFault.DiskFault)
        (D.fault_count store.old.device) (D.fault_count store.new.device) }
{
    if store.image().directory.size(number).is_none() {
        return Err(OpenFault::from(absent));
    }
    store.read_stream(alloc, number)
}

/// Whether a stream of this number may stand beside others: it is none of the first five, is
/// there, and is none of the others.
pub(crate) fn is_apart<D: Device>(store: &Store<D>, others: &[u32], number: u32) -> bool
    ensures { result ≡ is_apart_in (newest store.now.file).directory others.now number }
{
    number >= 5 && store.image().directory.size(number).is_some() && !others.contains(&number)
}
