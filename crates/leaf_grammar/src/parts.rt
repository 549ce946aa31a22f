ghost use Rattle.std.specs.Prelude.{◌≡◌, ◌≤◌, ◌<◌, ◌+◌, ◌^◌, length, IfOk};
ghost use Rattle.leaf_words.specs.Words.{end_of_text, numeric_end};
ghost use Rattle.leaf_grammar.specs.Leaf.{behind_form, behind_numeric, behind_text, bytes_on, form_end, elements_size, number_at, past as cursor_past, says, size_of};

use crate::grammar::{Condition, Cursor, Element, Form, Malformed, Part, Width};
use byteorder::{ByteOrder, LittleEndian};
use leaf_words::{NumericFault, numeric, text_end};

// The cursor behind a part, or what is wrong in the part.
#[tactic(auto, unfolding(crate::specs::Leaf::past))]
pub(crate) fn past(part: Part, bytes: &[u8], from: Cursor) -> Result<Cursor, Malformed>
    requires within { from.at ≤ length bytes.now }
    requires longest { length bytes.now ≤ 65536 }
    ensures cursor { result ≡ cursor_past part bytes.now from }
    ensures on { IfOk result (λ c. from.at ≤ c.at) }
    ensures inside { IfOk result (λ c. c.at ≤ length bytes.now) }
{
    match part {
        Part::Always(form) => past_form(form, bytes, from),
        Part::Where(condition, form) => {
            if holds(condition, from.attributes) {
                past_form(form, bytes, from)
            } else {
                Ok(from)
            }
        }
        Part::Attributes(width) => {
            let at = skip(width_bytes(width), bytes, from.at)?;
            let attributes = read(width, bytes, from.at);
            Ok(Cursor { at, attributes })
        }
    }
}

// Whether attributes say so.
pub(crate) fn holds(condition: Condition, attributes: u32) -> bool
    ensures { result ≡ says condition attributes }
{
    match condition {
        Condition::ToMember => matches!((attributes >> 5) & 7, 2 | 3),
        Condition::Introducing => matches!((attributes >> 2) & 7, 4 | 6),
        Condition::UniquelyNamed => attributes & 0x200 != 0,
    }
}

fn past_form(form: Form, bytes: &[u8], from: Cursor) -> Result<Cursor, Malformed>
    requires within { from.at ≤ length bytes.now }
    requires longest { length bytes.now ≤ 65536 }
    ensures cursor { result ≡ behind_form from (form_end form bytes.now from.at) }
    ensures on { IfOk result (λ c. from.at ≤ c.at) }
    ensures inside { IfOk result (λ c. c.at ≤ length bytes.now) }
{
    Ok(Cursor {
        at: behind(form, bytes, from.at)?,
        attributes: from.attributes,
    })
}

// The place behind what stands at a place.
#[tactic(auto, unfolding(crate::specs::Leaf::form_end))]
fn behind(form: Form, bytes: &[u8], at: usize) -> Result<usize, Malformed>
    requires within { at ≤ length bytes.now }
    requires longest { length bytes.now ≤ 65536 }
    ensures end { result ≡ form_end form bytes.now at }
    ensures on { IfOk result (λ end. at ≤ end) }
    ensures inside { IfOk result (λ end. end ≤ length bytes.now) }
{
    match form {
        Form::Index(_) => skip(4, bytes, at),
        Form::Number(size) => skip(usize::from(size), bytes, at),
        Form::Numeric => past_numeric(bytes, at),
        Form::Text => past_text(bytes, at),
        Form::List(width, element) => {
            let elements = skip(width_bytes(width), bytes, at)?;
            let count = read(width, bytes, at);
            skip(element_bytes(element, count), bytes, elements)
        }
    }
}

// The place so many bytes on.
pub(crate) fn skip(n: usize, bytes: &[u8], at: usize) -> Result<usize, Malformed>
    requires within { at ≤ length bytes.now }
    requires longest { length bytes.now ≤ 65536 }
    ensures end { result ≡ bytes_on n bytes.now at }
    ensures on { IfOk result (λ end. end ≡ at + n) }
    ensures inside { IfOk result (λ end. end ≤ length bytes.now) }
{
    if bytes.len() - at < n {
        Err(wrong(at, Malformed::SHORT))
    } else {
        Ok(at + n)
    }
}

fn past_numeric(bytes: &[u8], at: usize) -> Result<usize, Malformed>
    requires within { at ≤ length bytes.now }
    requires longest { length bytes.now ≤ 65536 }
    ensures end { result ≡ behind_numeric bytes.now at (numeric_end bytes.now at) }
    ensures on { IfOk result (λ end. at ≤ end) }
    ensures inside { IfOk result (λ end. end ≤ length bytes.now) }
{
    match numeric(bytes, at) {
        Ok(end) => Ok(end),
        Err(NumericFault::Unknown) => Err(wrong(at, Malformed::NUMERIC)),
        Err(NumericFault::Short) if bytes.len() - at < 2 => Err(wrong(at, Malformed::SHORT)),
        Err(NumericFault::Short) => Err(wrong(at + 2, Malformed::SHORT)),
    }
}

fn past_text(bytes: &[u8], at: usize) -> Result<usize, Malformed>
    requires within { at ≤ length bytes.now }
    requires longest { length bytes.now ≤ 65536 }
    ensures end { result ≡ behind_text at (end_of_text bytes.now at) }
    ensures on { IfOk result (λ end. at ≤ end) }
    ensures inside { IfOk result (λ end. end ≤ length bytes.now) }
{
    match text_end(bytes, at) {
        Some(end) => Ok(end),
        None => Err(wrong(at, Malformed::TEXT)),
    }
}

/// How many bytes a number has.
pub fn width_bytes(width: Width) -> usize
    ensures { result ≡ size_of width }
{
    match width {
        Width::TwoBytes => 2,
        Width::FourBytes => 4,
    }
}

// The bytes of so many elements.
fn element_bytes(element: Element, count: u32) -> usize
    ensures { result ≡ elements_size element count }
{
    let count = count as usize;
    match element {
        Element::Index(_) => 4 * count,
        Element::Byte => count,
        Element::HalfByte => (count + 1) / 2,
    }
}

/// The number that stands at a place.
pub fn read(width: Width, bytes: &[u8], at: usize) -> u32
    requires { at + size_of width ≤ length bytes.now }
    ensures { result ≡ number_at width bytes.now at }
{
    match width {
        Width::TwoBytes => u32::from(LittleEndian::read_u16(&bytes[at..])),
        Width::FourBytes => LittleEndian::read_u32(&bytes[at..]),
    }
}

pub(crate) fn wrong(at: usize, what: u8) -> Malformed
    requires { at < 2 ^ 32 }
    ensures { result ≡ record { at = at; what = what } }
{
    Malformed {
        at: at as u32,
        what,
    }
}
