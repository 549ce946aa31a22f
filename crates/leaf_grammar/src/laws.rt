ghost use Rattle.std.specs.Prelude.{◌≡◌, ℕ, List, Ok};
ghost use Rattle.leaf_grammar.specs.Leaf.{leaf_of};
ghost use Rattle.leaf_grammar.specs.Spelled.{IsLeaf};

use crate::grammar::{Leaf, Space};

/// A law: what `check` accepts is a leaf in the format's own words, and the other way round, with
/// the same kind and end. The words split the bytes: the length, the kind, spellings of the kind's
/// parts in order, and at most three bytes of rest, in a field list and a method list none.
pub fn leaves_are_spelled()
    ensures spelled { (space : Space) (bytes : List ℕ) (leaf : Leaf) →
        leaf_of space bytes ≡ Ok leaf → IsLeaf space bytes leaf }
    ensures read { (space : Space) (bytes : List ℕ) (leaf : Leaf) →
        IsLeaf space bytes leaf → leaf_of space bytes ≡ Ok leaf }
{}
