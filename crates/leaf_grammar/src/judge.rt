ghost use Rattle.std.specs.Prelude.{◌≡◌, ◌≤◌, ◌+◌, length, OnOk};
ghost use Rattle.byteorder.specs.Endian.{little_number};
ghost use Rattle.leaf_grammar.specs.Leaf.{leaf_of};

use crate::grammar::{Form, Leaf, Malformed, Space};
use crate::visit::VisitForms;
use crate::walk::walk_forms;

/// Judges a record of a space, from left to right.
pub fn check(space: Space, bytes: &[u8]) -> Result<Leaf, Malformed>
    ensures leaf { result ≡ leaf_of space bytes.now }
    ensures shortest { OnOk result (4 ≤ length bytes.now) }
    ensures longest { OnOk result (length bytes.now ≤ 65536) }
    ensures length { OnOk result (little_number 2 bytes.now + 2 ≡ length bytes.now) }
{
    walk_forms(space, bytes, &mut Unseen)
}

// Looks at nothing.
#[derive(Drop)]
struct Unseen;

impl VisitForms for Unseen {
    ghost use Rattle.std.specs.Prelude.{⊤};

    ghost does = { λ _ _ _ _. ⊤ };

    fn form(&mut self, _form: Form, _bytes: &[u8], _at: usize) {}
}
