//! How the commit that was prepared comes into a store, and which commits a crash may leave then.

ghost use Rattle.std.specs.Prelude.{◌≡◌, ℕ, false, List, IsTrue, OnOk, IsErr};
ghost use Rattle.srv_edge.specs.Count.{HasCause};
ghost use Rattle.srv_edge.specs.Disk.{LeavesOnly, Only};
ghost use Rattle.committer.specs.Left.{ShowsEither, file_after};
ghost use Rattle.committer.specs.Stored.{Shows, newest};
ghost use Rattle.committer.specs.Writing.{IsPlanned};
ghost use Rattle.type_store.specs.Inside.{cut_in, cuts_of};
ghost use Rattle.type_store.specs.Writing.{IsSeenAs, Leaves, cuts_left, fresh_left};

use crate::begun::CommitCut;
use committer::{Prepared, State, Store};
use srv_edge::Device;
use std::mem;

/// What a write that failed left of a file.
#[derive(Drop)]
pub enum Left {
    /// It is as it was.
    Unchanged,
    /// It is settled on the image that was the newest.
    Settled,
    /// It is in doubt between that image and the new one.
    Doubt,
}

/// Writes what was prepared into a store, and tells what a write that failed left.
pub fn write_to<D: Device>(store: &mut Store<D>, prepared: Prepared) -> Result<(), Left>
    requires planned { IsPlanned store.old.limit (newest store.old.file) prepared }
    ensures limit { store.new.limit ≡ store.old.limit }
    ensures any_moment { LeavesOnly D.moment D.left_since store.old.device store.new.device
        (ShowsEither store.old.limit store.old.file (D.seen store.old.device) prepared) }
    ensures told { LeavesOnly D.moment D.left_since store.old.device store.new.device
        (λ _. IsTrue D.tells) }
    ensures shows { (c : List ℕ) → D.may_leave store.new.device c
        → Shows store.new.limit store.new.file (D.seen store.new.device) c }
    ensures leaves { Leaves D.tells store.old.file (D.seen store.old.device) prepared
        store.new.file (D.seen store.new.device) result }
    ensures only { OnOk result (Only
        (file_after store.old.file (D.seen store.old.device) prepared)
        (D.may_leave store.new.device)) }
    ensures cause { HasCause (IsErr result)
        (D.fault_count store.old.device) (D.fault_count store.new.device) }
    ensures loans { D.loans store.new.device ≡ D.loans store.old.device }
{
    let map = store.image().head.map;
    let written = store.write(prepared);
    let begun = store.image().head.map != map;
    match written {
        Ok(()) => Ok(()),
        Err(_) => Err(left_in(store, begun)),
    }
}

// What is left, by the state of the store and whether its newest image is another than before.
fn left_in<D: Device>(store: &Store<D>, begun: bool) -> Left
    ensures { IsSeenAs store.now.file begun result }
{
    match store.state() {
        State::Settled => Left::Settled,
        State::Doubt if begun => Left::Doubt,
        State::Doubt => Left::Unchanged,
    }
}

/// The commits that a crash may leave once one was written, or a write of it failed, and whether the
/// newest image is still as it was opened or created.
pub fn turn(
    newest: &mut CommitCut,
    before: &mut Option<CommitCut>,
    cut: CommitCut,
    written: &Result<(), Left>,
)
    requires written { cut.fresh ≡ false }
    ensures cuts { cuts_of before.new newest.new
        ≡ cuts_left (cuts_of before.old newest.old) (cut_in cut) written.now }
    ensures fresh { newest.new.fresh ≡ fresh_left newest.old.fresh written.now }
{
    match written {
        Ok(()) => {
            *newest = cut;
            *before = None;
        }
        Err(Left::Unchanged) => {}
        Err(Left::Settled) => *before = None,
        Err(Left::Doubt) => {
            *before = Some(mem::replace(newest, cut));
        }
    }
}
