ghost use Rattle.std.specs.Prelude.{◌≡◌, ◌≤◌, ℕ, List, [], length, IsOk};
ghost use Rattle.leaf_grammar.specs.Found.{Placed};
ghost use Rattle.leaf_grammar.specs.Leaf.{form_end};

use crate::grammar::Form;

/// What is done with what stands in a record.
pub trait VisitForms {
    /// What a call does: the record, the visitor before it, what stands where, the visitor after
    /// it.
    ghost does: { List ℕ → Self → Placed → Self → Type 0 };

    /// The names of the references that it holds. No call puts another in their place.
    ghost loans: { Self → List ℕ } = { λ _. [] };

    /// Takes a form that is whole, and its offset from the record's first byte.
    fn form(&mut self, form: Form, bytes: &[u8], at: usize)
        requires within { at ≤ length bytes.now }
        requires longest { length bytes.now ≤ 65536 }
        requires whole { IsOk (form_end form bytes.now at) }
        ensures does { does bytes.now self.old (record { form = form; at = at }) self.new }
        ensures loans { loans self.new ≡ loans self.old };
}
