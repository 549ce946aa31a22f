ghost use Rattle.std.specs.Prelude.{◌≡◌, ◌<◌, ℕ, List, slice_index};
ghost use Rattle.srv_edge.specs.Frames.{AreFrames, Frame, IsVersion, Tail};
ghost use Rattle.srv_edge.specs.Replay.{IsImage, KeepsSettled, Step};

/// A law: an image of a file in memory is no shorter than the file at the last good sync, and has
/// its bytes where no step since covers them.
pub fn images_keep_settled()
    ensures { (settled : List ℕ) (steps : List Step) (c : List ℕ) → IsImage settled steps c
        → KeepsSettled settled steps c }
{}

/// A law: in each version the same bytes are read as frames in one way.
pub fn one_reading()
    ensures frames { (version : ℕ) (bytes : List ℕ) (fs gs : List Frame) (t u : Tail)
        → AreFrames version bytes fs t → AreFrames version bytes gs u
        → fs ≡ gs }
    ensures tail { (version : ℕ) (bytes : List ℕ) (fs gs : List Frame) (t u : Tail)
        → AreFrames version bytes fs t → AreFrames version bytes gs u
        → t ≡ u }
{}

/// A law: in each version any bytes are read as frames in some way.
pub fn some_reading()
    ensures { (version : ℕ) (bytes : List ℕ) → IsVersion version
        → ((i : ℕ) → slice_index bytes i < 256)
        → (frames : List Frame) × (tail : Tail) × AreFrames version bytes frames tail }
{}
