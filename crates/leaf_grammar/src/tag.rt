ghost use Rattle.std.specs.Prelude.{◌≡◌, ◌≤◌, length};
ghost use Rattle.leaf_grammar.specs.Tag.{attributes_of, is_tag as is_tag_kind, tag_of as tag_of_record, tag_with, texts_of};
ghost use Rattle.leaf_grammar.specs.Tags.{GivesTag, HasPlaces, tag_in, text_where};

use crate::grammar::{Condition, Form, Space, Width};
use crate::parts::{holds, read};
use crate::visit::VisitForms;
use crate::walk::{record_kind, walk_forms};
use leaf_words::text_end;

/// What stands in a class, a structure, an interface, a union or an enum beside its fields.
#[derive(Clone, Copy, Debug)]
pub struct Tag<'a> {
    /// A forward reference, which is described by another record (bit 80 hex of the attributes).
    pub is_forward: bool,
    /// Declared within a function (bit 100 hex).
    pub is_scoped: bool,
    /// Without its NUL.
    pub name: &'a [u8],
    /// The text that tells it from all other tags, without its NUL. None where the attributes have
    /// no bit 200 hex. It may be empty.
    pub unique_name: Option<&'a [u8]>,
}

/// The tag that a record is. None exactly where it is no leaf of these kinds.
#[tactic(auto, unfolding(crate::specs::Tag::tag_of))]
pub fn tag_of(bytes: &[u8]) -> Option<Tag<'_>>
    ensures { GivesTag result (tag_of_record bytes.now) }
{
    if bytes.len() < 8 || !is_tag(record_kind(bytes)) {
        return None;
    }
    let mut texts = Texts {
        first: None,
        second: None,
    };
    if walk_forms(Space::Types, bytes, &mut texts).is_ok() {
        Some(read_tag(bytes, texts))
    } else {
        None
    }
}

// A class, a structure, a union, an enum or an interface.
fn is_tag(kind: u16) -> bool
    ensures { result ≡ is_tag_kind kind }
{
    matches!(kind, 0x1504..=0x1507 | 0x1519)
}

// The places of the first two texts of a record.
#[derive(Clone, Copy)]
struct Texts {
    first: Option<usize>,
    second: Option<usize>,
}

impl VisitForms for Texts {
    ghost use Rattle.std.specs.Prelude.{◌≡◌};
    ghost use Rattle.leaf_grammar.specs.Tags.{with_form};

    ghost does = { λ _ before p after. after ≡ with_form before p };

    fn form(&mut self, form: Form, _bytes: &[u8], at: usize) {
        if let Form::Text = form {
            if self.first.is_none() {
                self.first = Some(at);
            } else if self.second.is_none() {
                self.second = Some(at);
            }
        }
    }
}

// A tag of which the first text is the name and the second the unique name.
fn read_tag(bytes: &[u8], texts: Texts) -> Tag<'_>
    requires shortest { 8 ≤ length bytes.now }
    requires places { HasPlaces texts bytes.now (texts_of bytes.now) }
    ensures { tag_in result ≡ tag_with (attributes_of bytes.now) (texts_of bytes.now) }
{
    let attributes = read(Width::TwoBytes, bytes, 6);
    let unique_name = if holds(Condition::UniquelyNamed, attributes) {
        Some(text_at(bytes, texts.second))
    } else {
        None
    };
    Tag {
        is_forward: attributes & 0x80 != 0,
        is_scoped: attributes & 0x100 != 0,
        name: text_at(bytes, texts.first),
        unique_name,
    }
}

// The text that stands at a place, without its NUL. No bytes where there is no place.
fn text_at(bytes: &[u8], at: Option<usize>) -> &[u8]
    ensures { result.now ≡ text_where bytes.now at }
{
    match at {
        None => &[],
        Some(at) => match text_end(bytes, at) {
            None => bytes.get(at..).unwrap_or(&[]),
            Some(end) => &bytes[at..end - 1],
        },
    }
}
