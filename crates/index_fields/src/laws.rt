ghost use Rattle.std.specs.Prelude.{◌≡◌, ◌≤◌, ◌+◌, ℕ, List, All, IsOk, drop, length};
ghost use Rattle.byteorder.specs.Endian.{little_number};
ghost use Rattle.leaf_grammar.specs.Leaf.{leaf_of};
ghost use Rattle.index_fields.specs.Fields.{fields_of};
ghost use Rattle.index_fields.specs.Places.{LieBetween, SameOutside, places};

use leaf_grammar::Space;

/// A law: the index fields of a leaf lie within it, behind its length and kind, and each behind the
/// four bytes of the one before it. The value of each is the number that stands there.
pub fn fields_lie_apart()
    ensures apart { (space : Space) (bytes : List ℕ) → IsOk (leaf_of space bytes) →
        LieBetween 4 (length bytes) (fields_of space bytes) }
    ensures within { (space : Space) (bytes : List ℕ) → IsOk (leaf_of space bytes) →
        All (λ f. f.at + 4 ≤ length bytes) (fields_of space bytes) }
    ensures values { (space : Space) (bytes : List ℕ) →
        All (λ f. f.value ≡ little_number 4 (drop f.at bytes)) (fields_of space bytes) }
{}

/// A law: whatever is written over the index fields of a leaf, four bytes each, it stays a leaf of
/// the same kind and end, with fields of the same spaces at the same places.
pub fn fields_may_change()
    ensures leaf { (space : Space) (old new : List ℕ) → IsOk (leaf_of space old) →
        SameOutside (fields_of space old) old new → leaf_of space new ≡ leaf_of space old }
    ensures places { (space : Space) (old new : List ℕ) → IsOk (leaf_of space old) →
        SameOutside (fields_of space old) old new →
        places (fields_of space new) ≡ places (fields_of space old) }
{}
