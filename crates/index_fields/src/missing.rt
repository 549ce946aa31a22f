ghost use Rattle.std.specs.Prelude.{◌≡◌, ◌≤◌, ◌^◌, IsOk};
ghost use Rattle.leaf_grammar.specs.Leaf.{leaf_of};
ghost use Rattle.index_fields.specs.Fields.{missing};

use crate::fields::each_field;
use crate::visit::Visit;
use leaf_grammar::Space;

/// The index of the first record of a space. Those below it are simple: they name no record.
const FIRST_INDEX: u32 = 0x1000;

/// The first index field of a leaf that names no record, where there are so many types and items.
pub fn first_missing(space: Space, bytes: &[u8], types: u32, items: u32) -> Option<(Space, u32)>
    requires leaf { IsOk (leaf_of space bytes.now) }
    requires types { types ≤ 2 ^ 23 }
    requires items { items ≤ 2 ^ 23 }
    ensures { result ≡ missing space bytes.now types items }
{
    let mut seen = Seen {
        types,
        items,
        missing: None,
    };
    each_field(space, bytes, &mut seen);
    seen.missing
}

// The first field so far that names none of so many records.
#[derive(Clone, Copy)]
struct Seen {
    types: u32,
    items: u32,
    missing: Option<(Space, u32)>,
}

impl Visit for Seen {
    ghost use Rattle.std.specs.Prelude.{◌≡◌};
    ghost use Rattle.index_fields.specs.Seen.{seen_with};

    ghost does = { λ before f after. after ≡ seen_with before f };

    fn field(&mut self, space: Space, _at: u32, value: u32) {
        let count = match space {
            Space::Types => self.types,
            Space::Items => self.items,
        };
        if self.missing.is_none() && value >= FIRST_INDEX && value - FIRST_INDEX >= count {
            self.missing = Some((space, value));
        }
    }
}
