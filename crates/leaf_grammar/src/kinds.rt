ghost use Rattle.std.specs.Prelude.{◌≡◌, None, Some, MatchOption};
ghost use Rattle.leaf_grammar.specs.Kinds.{method_parts, parts_of, parts_of_item, parts_of_member, parts_of_type, rows_of};

use crate::grammar::{Condition, Element, Form, Part, Rows, Space, Width};

// The forms of parts that stand always: indices, numbers of 8, 16 and 32 bits, attributes, ..
const TYPE: Part = Part::Always(Form::Index(Space::Types));

const ITEM: Part = Part::Always(Form::Index(Space::Items));

const N8: Part = Part::Always(Form::Number(1));

const N16: Part = Part::Always(Form::Number(2));

const N32: Part = Part::Always(Form::Number(4));

const FLAGS16: Part = Part::Attributes(Width::TwoBytes);

const FLAGS32: Part = Part::Attributes(Width::FourBytes);

const NUMERIC: Part = Part::Always(Form::Numeric);

const TEXT: Part = Part::Always(Form::Text);

const TYPES32: Part = Part::Always(Form::List(Width::FourBytes, Element::Index(Space::Types)));

const ITEMS16: Part = Part::Always(Form::List(Width::TwoBytes, Element::Index(Space::Items)));

const ITEMS32: Part = Part::Always(Form::List(Width::FourBytes, Element::Index(Space::Items)));

const BYTES32: Part = Part::Always(Form::List(Width::FourBytes, Element::Byte));

const HALF_BYTES16: Part = Part::Always(Form::List(Width::TwoBytes, Element::HalfByte));

// .. and those that the attributes before them decide.
const CLASS_OF_MEMBER: Part = Part::Where(Condition::ToMember, Form::Index(Space::Types));

const REPRESENTATION: Part = Part::Where(Condition::ToMember, Form::Number(2));

const VTABLE_OFFSET: Part = Part::Where(Condition::Introducing, Form::Number(4));

const UNIQUE_NAME: Part = Part::Where(Condition::UniquelyNamed, Form::Text);

const VTSHAPE: &[Part] = &[HALF_BYTES16];

const MODIFIER: &[Part] = &[TYPE, N16];

const POINTER: &[Part] = &[TYPE, FLAGS32, CLASS_OF_MEMBER, REPRESENTATION];

const PROCEDURE: &[Part] = &[TYPE, N8, N8, N16, TYPE];

const MFUNCTION: &[Part] = &[TYPE, TYPE, TYPE, N8, N8, N16, TYPE, N32];

const ARGLIST: &[Part] = &[TYPES32];

const BITFIELD: &[Part] = &[TYPE, N8, N8];

const ARRAY: &[Part] = &[TYPE, TYPE, NUMERIC, TEXT];

const CLASS: &[Part] = &[N16, FLAGS16, TYPE, TYPE, TYPE, NUMERIC, TEXT, UNIQUE_NAME];

const UNION: &[Part] = &[N16, FLAGS16, TYPE, NUMERIC, TEXT, UNIQUE_NAME];

const ENUM: &[Part] = &[N16, FLAGS16, TYPE, TYPE, TEXT, UNIQUE_NAME];

const VFTABLE: &[Part] = &[TYPE, TYPE, N32, BYTES32];

const ROWS_ALONE: &[Part] = &[];

const FUNC_ID: &[Part] = &[ITEM, TYPE, TEXT];

const MFUNC_ID: &[Part] = &[TYPE, TYPE, TEXT];

const BUILDINFO: &[Part] = &[ITEMS16];

const SUBSTR_LIST: &[Part] = &[ITEMS32];

const STRING_ID: &[Part] = &[ITEM, TEXT];

const UDT_SRC_LINE: &[Part] = &[TYPE, ITEM, N32];

const UDT_MOD_SRC_LINE: &[Part] = &[TYPE, N32, N32, N16];

const BASE: &[Part] = &[N16, TYPE, NUMERIC];

const VIRTUAL_BASE: &[Part] = &[N16, TYPE, TYPE, NUMERIC, NUMERIC];

const TYPE_ALONE: &[Part] = &[N16, TYPE];

const ENUMERATE: &[Part] = &[N16, NUMERIC, TEXT];

const MEMBER: &[Part] = &[N16, TYPE, NUMERIC, TEXT];

const TYPE_AND_NAME: &[Part] = &[N16, TYPE, TEXT];

const ONEMETHOD: &[Part] = &[FLAGS16, TYPE, VTABLE_OFFSET, TEXT];

const METHOD: &[Part] = &[FLAGS16, N16, TYPE, VTABLE_OFFSET];

// The parts of a kind's content. None where the space has no such kind.
#[tactic(auto, unfolding(crate::specs::Kinds::parts_of))]
pub(crate) fn parts_of_kind(space: Space, kind: u16) -> Option<&'static [Part]>
    ensures { MatchOption result (parts_of space kind ≡ None)
        (λ parts. parts_of space kind ≡ Some parts.now) }
{
    match space {
        Space::Types => type_parts(kind),
        Space::Items => item_parts(kind),
    }
}

fn type_parts(kind: u16) -> Option<&'static [Part]>
    ensures { MatchOption result (parts_of_type kind ≡ None)
        (λ parts. parts_of_type kind ≡ Some parts.now) }
{
    match kind {
        0x000A => Some(VTSHAPE),
        0x1001 => Some(MODIFIER),
        0x1002 => Some(POINTER),
        0x1008 => Some(PROCEDURE),
        0x1009 => Some(MFUNCTION),
        0x1201 => Some(ARGLIST),
        0x1203 | 0x1206 => Some(ROWS_ALONE),
        0x1205 => Some(BITFIELD),
        0x1503 => Some(ARRAY),
        0x1504 | 0x1505 | 0x1519 => Some(CLASS),
        0x1506 => Some(UNION),
        0x1507 => Some(ENUM),
        0x151D => Some(VFTABLE),
        _ => None,
    }
}

fn item_parts(kind: u16) -> Option<&'static [Part]>
    ensures { MatchOption result (parts_of_item kind ≡ None)
        (λ parts. parts_of_item kind ≡ Some parts.now) }
{
    match kind {
        0x1601 => Some(FUNC_ID),
        0x1602 => Some(MFUNC_ID),
        0x1603 => Some(BUILDINFO),
        0x1604 => Some(SUBSTR_LIST),
        0x1605 => Some(STRING_ID),
        0x1606 => Some(UDT_SRC_LINE),
        0x1607 => Some(UDT_MOD_SRC_LINE),
        _ => None,
    }
}

// What stands behind the parts of a kind, to the end.
#[tactic(auto, unfolding(crate::specs::Kinds::rows_of))]
pub(crate) fn rows_of_kind(kind: u16) -> Option<Rows>
    ensures { result ≡ rows_of kind }
{
    match kind {
        0x1203 => Some(Rows::Members),
        0x1206 => Some(Rows::Methods),
        _ => None,
    }
}

// The parts of a member behind its kind. None where there is no such member.
#[tactic(auto, unfolding(crate::specs::Kinds::parts_of_member))]
pub(crate) fn member_parts(kind: u16) -> Option<&'static [Part]>
    ensures { MatchOption result (parts_of_member kind ≡ None)
        (λ parts. parts_of_member kind ≡ Some parts.now) }
{
    match kind {
        0x1400 | 0x151A => Some(BASE),
        0x1401 | 0x1402 => Some(VIRTUAL_BASE),
        0x1404 | 0x1409 => Some(TYPE_ALONE),
        0x1502 => Some(ENUMERATE),
        0x150D => Some(MEMBER),
        0x150E | 0x150F | 0x1510 => Some(TYPE_AND_NAME),
        0x1511 => Some(ONEMETHOD),
        _ => None,
    }
}

// The parts of a method of a method list.
#[tactic(auto, unfolding(crate::specs::Kinds::method_parts))]
pub(crate) fn parts_of_method() -> &'static [Part]
    ensures { result.now ≡ method_parts }
{
    METHOD
}
