ghost use Rattle.std.specs.Prelude.{◌≡◌, ◌≤◌, ◌+◌, ◌*◌, length, IsOk};
ghost use Rattle.leaf_grammar.specs.Leaf.{form_end, leaf_of};
ghost use Rattle.leaf_grammar.specs.Visits.{Visits};
ghost use Rattle.index_fields.specs.Fields.{fields_in, fields_of, run_from};

use crate::visit::Visit;
use leaf_grammar::{Element, Form, Space, VisitForms, Width, read, walk_forms, width_bytes};

/// Shows each index field of a leaf to a visitor, from left to right.
pub fn each_field<V: Visit>(space: Space, bytes: &[u8], visit: &mut V)
    requires leaf { IsOk (leaf_of space bytes.now) }
    ensures { Visits V.does (fields_of space bytes.now) visit.old visit.new }
{
    let mut fields = Fields { visit };
    show_fields(space, bytes, &mut fields);
}

fn show_fields<V: Visit>(space: Space, bytes: &[u8], fields: &mut Fields<'_, V>)
    requires leaf { IsOk (leaf_of space bytes.now) }
    ensures visits { Visits V.does (fields_of space bytes.now)
        fields.old.visit.now fields.new.visit.now }
    ensures same { fields.new.visit.ghost_name ≡ fields.old.visit.ghost_name }
{
    let _ = walk_forms(space, bytes, fields);
}

// Shows the index fields of each form to a visitor.
#[derive(Drop)]
struct Fields<'a, V: Visit> {
    visit: &'a mut V,
}

impl<'a, V: Visit> VisitForms for Fields<'a, V> {
    ghost use Rattle.std.specs.Prelude.{[], ◌∷◌};
    ghost use Rattle.leaf_grammar.specs.Visits.{Visits};
    ghost use Rattle.index_fields.specs.Fields.{fields_in};

    ghost does = { λ r before p after.
        Visits V.does (fields_in p.form r p.at) before.visit.now after.visit.now };

    ghost loans = { λ fields. fields.visit.ghost_name ∷ [] };

    fn form(&mut self, form: Form, bytes: &[u8], at: usize) {
        visit_form(form, bytes, at, &mut *self.visit);
    }
}

#[tactic(auto, unfolding(crate::specs::Fields::fields_in))]
fn visit_form<V: Visit>(form: Form, bytes: &[u8], at: usize, visit: &mut V)
    requires whole { IsOk (form_end form bytes.now at) }
    requires longest { length bytes.now ≤ 65536 }
    ensures { Visits V.does (fields_in form bytes.now at) visit.old visit.new }
{
    match form {
        Form::Index(space) => visit_run(space, bytes, at, 1, visit),
        Form::List(width, element) => visit_list(width, element, bytes, at, visit),
        Form::Number(_) | Form::Numeric | Form::Text => {}
    }
}

#[tactic(auto, unfolding(crate::specs::Fields::fields_in))]
fn visit_list<V: Visit>(width: Width, element: Element, bytes: &[u8], at: usize, visit: &mut V)
    requires whole { IsOk (form_end (Form.List width element) bytes.now at) }
    requires longest { length bytes.now ≤ 65536 }
    ensures { Visits V.does (fields_in (Form.List width element) bytes.now at) visit.old visit.new }
{
    match element {
        Element::Index(space) => {
            let count = read(width, bytes, at);
            visit_run(space, bytes, at + width_bytes(width), count, visit);
        }
        Element::Byte | Element::HalfByte => {}
    }
}

// So many indices from a place on.
fn visit_run<V: Visit>(space: Space, bytes: &[u8], from: usize, count: u32, visit: &mut V)
    requires room { from + 4 * count ≤ length bytes.now }
    requires longest { length bytes.now ≤ 65536 }
    ensures { Visits V.does (run_from space bytes.now from count) visit.old visit.new }
{
    for k in 0..count {
        let at = from + 4 * k as usize;
        visit.field(space, at as u32, read(Width::FourBytes, bytes, at));
    }
}
