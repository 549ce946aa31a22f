ghost use Rattle.std.specs.Prelude.{ℕ, List, Option};
ghost use Rattle.msf_blocks.specs.Edit.{StreamEdit};
ghost use Rattle.msf_image.specs.declared.image.Image.{Image};
ghost use Rattle.msf_image.specs.Relation.{Reads};
ghost use Rattle.cow_streams.specs.Edits.{edited};
ghost use Rattle.cow_streams.specs.Plan.{IsPlan};
ghost use Rattle.cow_streams.specs.Planned.{Planned};
ghost use Rattle.committer.specs.Writing.{file_with};

/// A law: a file into which a plan is written reads as the edited streams.
pub fn written_reads()
    ensures { (limit : ℕ) (old : Image) (edits : List StreamEdit) (plan : Planned)
        (streams : List (Option (List ℕ))) (file : List ℕ) → IsPlan limit old edits plan
        → Reads file limit old streams
        → Reads (file_with file plan) limit plan.image (edited edits streams) }
{}
