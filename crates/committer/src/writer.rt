//! The device calls of a commit. Each clause on what a crash leaves speaks of every change for which
//! the device is ready.

ghost use Rattle.std.specs.Prelude.{◌≡◌, ◌⊎◌, ℕ, List, IsTrue, IsErr, IsErrOf, OnOk};
ghost use Rattle.srv_edge.specs.Count.{HasCause};
ghost use Rattle.srv_edge.specs.Disk.{LeavesOnly, Only, with_head};
ghost use Rattle.msf_blocks.specs.Blocks.{IsBlockSize};
ghost use Rattle.msf_blocks.specs.Superblock.{superblock_text};
ghost use Rattle.msf_image.specs.Reads.{IsWhole};
ghost use Rattle.cow_streams.specs.Planned.{with_writes};
ghost use Rattle.committer.specs.Change.{Change, IsEither, IsNew, IsOld, IsReady};
ghost use Rattle.committer.specs.declared.state.State.{State};
ghost use Rattle.committer.specs.Writing.{ArePlaced, CanPut, CanTurn, CanWrite, IsWritable, file_with};

use crate::state::State;
use cow_streams::{BlockWrite, Plan};
use msf_blocks::{block_offset, write_super};
use msf_image::Image;
use srv_edge::{Device, Failed};

/// Writes these blocks, each whole.
pub fn write_blocks<D: Device>(
    device: &mut D,
    block_size: u32,
    writes: &[BlockWrite],
) -> Result<(), Failed>
    requires size { IsBlockSize block_size }
    requires placed { ArePlaced block_size writes.now }
    ensures any_moment { (change : Change)
        → CanWrite change block_size writes.now (D.may_leave device.old)
        → LeavesOnly D.moment D.left_since device.old device.new (IsOld change) }
    ensures still { (change : Change)
        → CanWrite change block_size writes.now (D.may_leave device.old)
        → (c : List ℕ) → D.may_leave device.new c → IsOld change c }
    ensures written { IsTrue D.tells → OnOk result
        (D.seen device.new ≡ with_writes block_size (D.seen device.old) writes.now) }
    ensures cause { HasCause (IsErr result) (D.fault_count device.old) (D.fault_count device.new) }
    ensures loans { D.loans device.new ≡ D.loans device.old }
{
    for w in writes {
        device.write(block_offset(block_size, w.block()), w.bytes())?;
    }
    Ok(())
}

/// Writes the superblock of an image, and a sync.
pub fn turn<D: Device>(device: &mut D, image: &Image) -> Result<(), Failed>
    requires whole { IsWhole image.now }
    ensures any_moment { (change : Change) → CanTurn change image.now (D.may_leave device.old)
        → LeavesOnly D.moment D.left_since device.old device.new (IsEither change image.now) }
    ensures still { (change : Change) → CanTurn change image.now (D.may_leave device.old)
        → (c : List ℕ) → D.may_leave device.new c
        → IsReady change image.now c ⊎ IsNew change image.now c }
    ensures done { (change : Change) → CanTurn change image.now (D.may_leave device.old)
        → OnOk result ((c : List ℕ) → D.may_leave device.new c → IsNew change image.now c) }
    ensures only { OnOk result (Only
        (with_head (D.seen device.old) (superblock_text image.now.head)) (D.may_leave device.new)) }
    ensures cause { HasCause (IsErr result) (D.fault_count device.old) (D.fault_count device.new) }
    ensures loans { D.loans device.new ≡ D.loans device.old }
{
    let text = write_super(&image.head);
    device.write_super(&text)?;
    device.sync()
}

/// Writes a plan: its blocks, a sync, its superblock, and a sync. An error says what is left.
pub fn write_plan<D: Device>(device: &mut D, plan: &Plan) -> Result<(), State>
    requires writable { IsWritable plan.now }
    ensures any_moment { (change : Change)
        → CanPut change plan.now (D.seen device.old) (D.may_leave device.old)
        → LeavesOnly D.moment D.left_since device.old device.new (IsEither change plan.now.image) }
    ensures done { (change : Change)
        → CanPut change plan.now (D.seen device.old) (D.may_leave device.old) → OnOk result
        ((c : List ℕ) → D.may_leave device.new c → IsNew change plan.now.image c) }
    ensures settled { (change : Change)
        → CanPut change plan.now (D.seen device.old) (D.may_leave device.old)
        → IsErrOf result State.Settled
        → (c : List ℕ) → D.may_leave device.new c → IsOld change c }
    ensures doubt { (change : Change)
        → CanPut change plan.now (D.seen device.old) (D.may_leave device.old)
        → IsErrOf result State.Doubt → (c : List ℕ) → D.may_leave device.new c
        → IsReady change plan.now.image c ⊎ IsNew change plan.now.image c }
    ensures only { OnOk result
        (Only (file_with (D.seen device.old) plan.now) (D.may_leave device.new)) }
    ensures cause { HasCause (IsErr result) (D.fault_count device.old) (D.fault_count device.new) }
    ensures loans { D.loans device.new ≡ D.loans device.old }
{
    let image = plan.image();
    let Ok(()) = write_blocks(device, image.head.block, plan.writes()) else {
        return Err(State::Settled);
    };
    let Ok(()) = device.sync() else {
        return Err(State::Settled);
    };
    let Ok(()) = turn(device, image) else {
        return Err(State::Doubt);
    };
    Ok(())
}
