ghost use Rattle.std.specs.Prelude.{◌≡◌, ◌≤◌, ◌<◌, ◌^◌, ℕ, List, [], All, Option, length};
ghost use Rattle.srv_edge.specs.Disk.{with_head};
ghost use Rattle.msf_blocks.specs.Edit.{StreamEdit};
ghost use Rattle.msf_blocks.specs.Superblock.{superblock_text};
ghost use Rattle.msf_image.specs.declared.image.Image.{Image};
ghost use Rattle.msf_image.specs.Packed.{IsPackable, packed_file, packed_super};
ghost use Rattle.msf_image.specs.Reads.{IsWhole};
ghost use Rattle.msf_image.specs.Relation.{Reads};
ghost use Rattle.cow_streams.specs.Edits.{AreEdits, edited};
ghost use Rattle.cow_streams.specs.Packing.{new_plan};
ghost use Rattle.cow_streams.specs.Plan.{IsPlan, KeepsOld, TakesNew};
ghost use Rattle.cow_streams.specs.Planned.{FitsDirectory, Planned, new_blocks, planned, with_writes};

/// A law: what is planned for edits that fit is what a writer may rest on.
pub fn planned_is_plan()
    ensures { (limit : ℕ) (old : Image) (edits : List StreamEdit) → IsWhole old
        → AreEdits old.head.block old.directory edits → limit < 2 ^ 32 → FitsDirectory old edits
        → new_blocks old edits ≤ limit → IsPlan limit old edits (planned old edits) }
{}

/// A law of any plan for a file, whatever else stands in the file or behind its end. With the old
/// superblock, and the old bytes outside the writes, a file reads as the old streams with the old
/// free blocks. With the new superblock, the writes in place, and the old bytes of the blocks that
/// are kept, it reads as the edited streams, with the old block size and the old number without a
/// known meaning.
pub fn plan_of_a_file()
    ensures old { (limit : ℕ) (old : Image) (edits : List StreamEdit) (p : Planned)
        (streams : List (Option (List ℕ))) (file other : List ℕ) → IsPlan limit old edits p
        → Reads file limit old streams → KeepsOld old p.writes file other
        → Reads other limit old streams }
    ensures new { (limit : ℕ) (old : Image) (edits : List StreamEdit) (p : Planned)
        (streams : List (Option (List ℕ))) (file other : List ℕ) → IsPlan limit old edits p
        → Reads file limit old streams → TakesNew old edits p file other
        → Reads other limit p.image (edited edits streams) }
{}

/// A law: the plan of a new file writes whole blocks behind the superblock's and in the file, and these
/// writes and the superblock, made on an empty file, leave the packed file of its streams.
pub fn new_plan_packs()
    ensures placed { (size : ℕ) (streams : List (Option (List ℕ))) → IsPackable size streams
        → All (λ w. (1 ≤ w.block) × (w.block < (packed_super size 0 streams).blocks)
        × (length w.bytes ≡ size)) (new_plan size streams).writes }
    ensures packed { (size : ℕ) (streams : List (Option (List ℕ))) → IsPackable size streams
        → with_head (with_writes size [] (new_plan size streams).writes)
        (superblock_text (packed_super size 0 streams)) ≡ packed_file size 0 streams }
{}
