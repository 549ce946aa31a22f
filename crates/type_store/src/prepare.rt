//! The plan of a commit of tables.

ghost use Rattle.std.specs.Prelude.{◌≡◌, ◌≤◌, ◌<◌, ◌^◌, false, length, IsTrue, IfOk, IfErr, OnOk};
ghost use Rattle.committer.specs.Left.{file_after};
ghost use Rattle.committer.specs.Stored as stored;
ghost use Rattle.cow_streams.specs.Edits.{edited};
ghost use Rattle.cow_streams.specs.Plan.{IsPlan};
ghost use Rattle.cow_streams.specs.Planned.{planned};
ghost use Rattle.msf_blocks.specs.Blocks.{IsBlockSize};
ghost use Rattle.msf_image.specs.Relation.{Reads, contents_in};
ghost use Rattle.type_store.specs.Commit.{commit_edits, extent_of};
ghost use Rattle.type_store.specs.Committed.{GoesOn};
ghost use Rattle.type_store.specs.Files.{FitsDirectory, cut_of};
ghost use Rattle.type_store.specs.Inside.{origin_of};
ghost use Rattle.type_store.specs.Planning.{MayCommit, edits_of};
ghost use Rattle.type_store.specs.Preparing.{AreKept, HasNoPlace, commit_on};
ghost use Rattle.type_store.specs.Shape.{bytes_for};
ghost use Rattle.type_store.specs.Views.{tables_in};
ghost use Rattle.type_store.specs.Written.{CanKeep};

use crate::base::Base;
use crate::begun::CommitCut;
use crate::commits::commits_can_be_planned;
use crate::cut::CutRef;
use crate::edits::commit_edits;
use crate::file::Origin;
use crate::tables::Tables;
use committer::{Prepared, Store};
use cow_streams::PlanFault;
use msf_blocks::Edit;
use srv_edge::Device;
use std::alloc::{AllocError, Global};

/// The tables under the number of their commit.
pub(crate) fn cut_of_tables(number: u32, tables: &Tables) -> CutRef
    ensures cut { result ≡ cut_of number (tables_in tables.now) }
    ensures kept { AreKept (tables_in tables.now) }
{
    let _types = tables.types.records();
    let _items = tables.items.records();
    let _names = tables.names.bytes();
    CutRef::new(number, &tables.types, &tables.items, &tables.names)
}

// The edits of a commit, and how far the streams then reach.
fn edits_on<'a, D: Device>(
    alloc: Global,
    block_size: u32,
    origin: &Origin<D>,
    newest: &CommitCut,
    cut: &'a CutRef,
) -> Result<(Vec<Edit<'a>>, Base), AllocError>
    requires size { IsBlockSize block_size }
    requires kept { CanKeep origin.now.kept origin.now.info.items }
    requires short { length origin.now.info.items < 2 ^ 32 }
    requires on { GoesOn newest.now.cut.tables cut.now.tables }
    ensures edits { IfOk result (λ r. r.0.items ≡ commit_edits block_size origin.now.kept
        (extent_of newest.now.fresh newest.now.cut.tables) origin.now.info.items cut.now.number
        cut.now.tables) }
    ensures base { IfOk result (λ r. r.1 ≡ extent_of false cut.now.tables) }
{
    let old = newest.base();
    let new = old.after(alloc, cut)?;
    let edits = commit_edits(
        alloc,
        block_size,
        &origin.kept,
        &origin.info,
        old,
        &new,
        cut,
    )?;
    Ok((edits, new))
}

/// Plans a commit on the newest image of a store, and tells how far its streams then reach.
pub(crate) fn plan_commit<D: Device>(
    alloc: Global,
    store: &Store<D>,
    origin: &Origin<D>,
    newest: &CommitCut,
    cut: &CutRef,
) -> Result<(Prepared, Base), PlanFault>
    requires may { MayCommit (commit_on (origin_of D.seen origin.now) newest.now.fresh
        newest.now.cut.tables cut.now) (stored.newest store.now.file) }
    requires short { bytes_for (origin_of D.seen origin.now).shape.block
        (origin_of D.seen origin.now).shape.sizes ≤ 2 ^ 28 }
    ensures planned { IfOk result (λ r. r.0 ≡ planned (stored.newest store.now.file) (edits_of
        (commit_on (origin_of D.seen origin.now) newest.now.fresh newest.now.cut.tables cut.now)
        (stored.newest store.now.file).head.block)) }
    ensures sound { IfOk result (λ r. IsPlan store.now.limit (stored.newest store.now.file) (edits_of
        (commit_on (origin_of D.seen origin.now) newest.now.fresh newest.now.cut.tables cut.now)
        (stored.newest store.now.file).head.block) r.0) }
    ensures reads { IsTrue D.tells → IfOk result (λ r. Reads
        (file_after store.now.file (D.seen store.now.device) r.0) store.now.limit r.0.image
        (edited (edits_of
        (commit_on (origin_of D.seen origin.now) newest.now.fresh newest.now.cut.tables cut.now)
        (stored.newest store.now.file).head.block)
        (contents_in (D.seen store.now.device) (stored.newest store.now.file)))) }
    ensures fits { OnOk result
        (FitsDirectory (origin_of D.seen origin.now).shape cut.now.tables) }
    ensures refused { IfErr result (HasNoPlace store.now.limit
        (origin_of D.seen origin.now).shape cut.now.tables) }
    ensures base { IfOk result (λ r. r.1 ≡ extent_of false cut.now.tables) }
{
    commits_can_be_planned();
    let block_size = store.image().head.block;
    let (edits, base) = edits_on(alloc, block_size, origin, newest, cut)?;
    let prepared = store.prepare(alloc, &edits)?;
    Ok((prepared, base))
}
