//! Laws of what a commit of tables writes.

ghost use Rattle.std.specs.Prelude.{◌≡◌, ◌≤◌, ◌<◌, ◌+◌, ◌^◌, ℕ, Bool, false, List, Ok, length, drop};
ghost use Rattle.info_stream.specs.Text.{new_info, with_age};
ghost use Rattle.srv_edge.specs.declared.failed.Limits.{Limits};
ghost use Rattle.srv_edge.specs.Records.{joined};
ghost use Rattle.stream_directory.specs.Directory.{stream_at};
ghost use Rattle.tpi_stream.specs.declared.header.TheConstants.{HEADER_BYTES};
ghost use Rattle.table_model.specs.Bounds.{Bounds, bounds_of};
ghost use Rattle.msf_blocks.specs.Blocks.{IsBlockSize};
ghost use Rattle.msf_image.specs.declared.image.Image.{Image};
ghost use Rattle.msf_image.specs.Relation.{Reads};
ghost use Rattle.cow_streams.specs.Edits.{AreEdits};
ghost use Rattle.cow_streams.specs.Plan.{IsPlan};
ghost use Rattle.cow_streams.specs.Planned.{Planned, new_blocks, new_dir_bytes, planned};
ghost use Rattle.table_model.specs.Tables.{Tables, empty_tables};
ghost use Rattle.type_store.specs.Commit.{commit_edits, extent_of};
ghost use Rattle.type_store.specs.Committed.{GoesOn, HoldsTables, IsBase, IsCommitted, edited_contents};
ghost use Rattle.type_store.specs.Holds.{Contents, Held, holding, tables_of};
ghost use Rattle.type_store.specs.NewFile.{new_contents, new_numbers};
ghost use Rattle.type_store.specs.Planning.{Commit, IsWrittenImage, MayCommit, edits_of};
ghost use Rattle.type_store.specs.Shape.{HaveRoom, MayNeed, Shape, bytes_for, directory_bytes, shape_of, size_at, sizes_in, sizes_of, written_sizes};
ghost use Rattle.type_store.specs.Sharing.{KeepsInner, Shares};
ghost use Rattle.type_store.specs.Written.{AreWithin, CanKeep, HaveBytes, KeptNumbers, numbers_of};

use crate::laws::{held_numbers_can_be_kept, new_file_is_written, written_tables_are_held};

/// A law: to contents that hold tables commits can be made, and so to those of a new file. The
/// streams that commits write are there, and the records lie in theirs.
pub fn held_tables_can_be_committed()
    ensures opened { (limits : Bounds) (contents : Contents) (held : Held) → HaveBytes contents
        → holding limits contents ≡ Ok held → (info : List ℕ) × CanKeep (numbers_of held) info
        × HoldsTables limits (numbers_of held) info held.age (tables_of limits held) contents }
    ensures created { (limits : Limits) (guid : List ℕ) (signature : ℕ) → length guid ≡ 16
        → CanKeep new_numbers (new_info guid signature)
        × HoldsTables (bounds_of limits) new_numbers (new_info guid signature) 1 (empty_tables limits)
        (new_contents guid signature) }
    ensures room { (limits : Bounds) (kept : KeptNumbers) (info : List ℕ) (age : ℕ)
        (tables : Tables) (contents : Contents) → HoldsTables limits kept info age tables contents
        → HaveRoom kept info tables (sizes_of contents) }
{
    held_numbers_can_be_kept();
    new_file_is_written();
}

/// A law: what the edits of a commit leave, over contents on which it may be built, is written for
/// its tables, with every other stream as it was in the contents that were opened. So the next
/// commit may be built on it, however many there were. It holds these tables and this age.
pub fn commits_write_tables()
    ensures written { (limits : Bounds) (size first_age age next : ℕ) (fresh : Bool)
        (kept : KeptNumbers) (info : List ℕ) (first old tables : Tables)
        (opened contents : Contents) → IsBlockSize size → CanKeep kept info
        → HoldsTables limits kept info first_age first opened
        → IsBase fresh kept info age first opened old contents → GoesOn old tables
        → IsCommitted kept info next tables opened (edited_contents
        (commit_edits size kept (extent_of fresh old) info next tables) contents) }
    ensures held { (limits : Bounds) (kept : KeptNumbers) (info : List ℕ) (age : ℕ)
        (tables : Tables) (opened contents : Contents) → CanKeep kept info
        → AreWithin limits tables → age < 2 ^ 32
        → IsCommitted kept info age tables opened contents
        → HoldsTables limits kept (with_age info age) age tables contents }
    ensures sizes { (limits : Bounds) (block blocks first_age age : ℕ) (kept : KeptNumbers)
        (info : List ℕ) (first tables : Tables) (opened contents : Contents) → CanKeep kept info
        → HoldsTables limits kept info first_age first opened
        → IsCommitted kept info age tables opened contents → sizes_of contents
        ≡ written_sizes (shape_of block blocks (sizes_of opened) kept) tables }
{
    written_tables_are_held();
}

/// A law: the edits of a commit may be planned, and their plan needs a directory that is just that
/// of a file which is written for the tables, and no more blocks than the shape of the opened file
/// and the tables tell. On the image that is planned the next commit may be built. It shares with
/// the old image all blocks of streams but those that the commit must write.
pub fn commits_can_be_planned()
    ensures edits { (c : Commit) (image : Image) → MayCommit c image
        → AreEdits image.head.block image.directory (edits_of c image.head.block) }
    ensures directory { (c : Commit) (image : Image) → MayCommit c image
        → new_dir_bytes image (edits_of c image.head.block) ≡ directory_bytes c.shape c.tables }
    ensures short { (limits : Bounds) (shape : Shape) (tables : Tables) → IsBlockSize shape.block
        → AreWithin limits tables → bytes_for shape.block shape.sizes ≤ 2 ^ 28
        → directory_bytes shape tables < 2 ^ 32 }
    ensures blocks { (c : Commit) (image : Image) (needed : ℕ) → MayCommit c image
        → needed ≡ new_blocks image (edits_of c image.head.block) → image.head.blocks < needed
        → MayNeed c.shape c.tables needed }
    ensures next { (c : Commit) (limit : ℕ) (image : Image) (p : Planned) → MayCommit c image
        → p ≡ planned image (edits_of c image.head.block)
        → IsPlan limit image (edits_of c image.head.block) p
        → IsWrittenImage c.shape c.tables p.image }
    ensures shares { (c : Commit) (limit : ℕ) (image : Image) (p : Planned) → MayCommit c image
        → IsPlan limit image (edits_of c image.head.block) p
        → Shares c.shape c.fresh c.old c.tables image p.image }
{}

/// A law: of the streams of types and of items a commit behind the first gives other numbers to at
/// most two old blocks, the first and that of the old end.
pub fn commits_keep_old_records()
    ensures types { (c : Commit) (image new : Image) → MayCommit c image
        → Shares c.shape false c.old c.tables image new
        → KeepsInner c.shape.block (HEADER_BYTES + length (joined c.old.types.records))
        (stream_at image.directory 2) (stream_at new.directory 2) }
    ensures items { (c : Commit) (image new : Image) → MayCommit c image
        → Shares c.shape false c.old c.tables image new
        → KeepsInner c.shape.block (HEADER_BYTES + length (joined c.old.items.records))
        (stream_at image.directory 4) (stream_at new.directory 4) }
{}

/// A law: the directory of a file has the sizes of the contents that the file reads as, but for
/// stream 0, which is not read, and is short.
pub fn sizes_are_read()
    ensures sizes { (file : List ℕ) (limit : ℕ) (image : Image) (contents : Contents) (i : ℕ)
        → Reads file limit image (drop 1 contents) → 1 ≤ i
        → size_at (sizes_in image.directory) i ≡ size_at (sizes_of contents) i }
    ensures room { (file : List ℕ) (limit : ℕ) (image : Image) (kept : KeptNumbers)
        (info : List ℕ) (tables : Tables) (contents : Contents) → CanKeep kept info
        → Reads file limit image (drop 1 contents) → HaveRoom kept info tables (sizes_of contents)
        → HaveRoom kept info tables (sizes_in image.directory) }
    ensures directory { (file : List ℕ) (limit : ℕ) (image : Image) (contents : Contents)
        → Reads file limit image (drop 1 contents)
        → bytes_for image.head.block (sizes_in image.directory) ≤ 2 ^ 28 }
{}
