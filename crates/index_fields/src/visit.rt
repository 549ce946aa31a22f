ghost use Rattle.index_fields.specs.Fields.{Field};

use leaf_grammar::Space;

/// What is done with the index fields of a leaf.
pub trait Visit {
    /// What a call does: the visitor before it, the field, the visitor behind it.
    ghost does: { Self → Field → Self → Type 0 };

    /// Takes a field: the space that it names, its offset from the record's first byte, its value.
    fn field(&mut self, space: Space, at: u32, value: u32)
        ensures { does self.old (record { space = space; at = at; value = value }) self.new };
}
