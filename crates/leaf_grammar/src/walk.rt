ghost use Rattle.std.specs.Prelude.{◌≡◌, ◌≤◌, ◌<◌, ◌+◌, ◌^◌, Some, length, OnOk, IfOk, IsOk};
ghost use Rattle.byteorder.specs.Endian.{little_number};
ghost use Rattle.leaf_grammar.specs.Found.{forms_of, found_at, found_behind, found_in, found_in_content, found_in_row, found_in_rows, placed};
ghost use Rattle.leaf_grammar.specs.Leaf.{content_end, cursor, has_length, kind_of, leaf_of, parts_end, past as cursor_past, row_end, rows_end, tail_end};
ghost use Rattle.leaf_grammar.specs.Visits.{Visits};

use crate::grammar::{Cursor, Leaf, Malformed, Part, Rows, Space};
use crate::kinds::{parts_of_kind, rows_of_kind};
use crate::parts::{holds, past, wrong};
use crate::rows::row_from;
use crate::visit::VisitForms;
use byteorder::{ByteOrder, LittleEndian};

/// Judges a record of a space, from left to right, and shows all that is whole in it to a visitor.
#[tactic(auto, unfolding(crate::specs::Leaf::leaf_of, crate::specs::Found::forms_of))]
pub fn walk_forms<V: VisitForms>(
    space: Space,
    bytes: &[u8],
    visit: &mut V,
) -> Result<Leaf, Malformed>
    ensures leaf { result ≡ leaf_of space bytes.now }
    ensures shortest { OnOk result (4 ≤ length bytes.now) }
    ensures longest { OnOk result (length bytes.now ≤ 65536) }
    ensures length { OnOk result (little_number 2 bytes.now + 2 ≡ length bytes.now) }
    ensures visits { Visits (V.does bytes.now) (forms_of space bytes.now) visit.old visit.new }
    ensures loans { V.loans visit.new ≡ V.loans visit.old }
{
    if !is_as_long_as_it_says(bytes) {
        return Err(wrong(0, Malformed::LENGTH));
    }
    let kind = record_kind(bytes);
    let Some(parts) = parts_of_kind(space, kind) else {
        return Err(wrong(2, Malformed::KIND));
    };
    let end = walk_content(parts, rows_of_kind(kind), bytes, visit)?;
    Ok(Leaf { kind, end })
}

// 4 to 65,536 bytes, a multiple of 4, and the length that the first two say.
pub(crate) fn is_as_long_as_it_says(bytes: &[u8]) -> bool
    ensures { result ≡ has_length bytes.now }
{
    let n = bytes.len();
    4 <= n && n <= 65_536 && n % 4 == 0 && usize::from(LittleEndian::read_u16(bytes)) + 2 == n
}

/// The kind of a record, as the public format numbers it.
pub fn record_kind(bytes: &[u8]) -> u16
    requires { 4 ≤ length bytes.now }
    ensures { result ≡ kind_of bytes.now }
{
    LittleEndian::read_u16(&bytes[2..])
}

// The parts of a kind, and what stands behind them. The place behind it all.
fn walk_content<V: VisitForms>(
    parts: &[Part],
    rows: Option<Rows>,
    bytes: &[u8],
    visit: &mut V,
) -> Result<usize, Malformed>
    requires shortest { 4 ≤ length bytes.now }
    requires longest { length bytes.now ≤ 65536 }
    ensures end { result ≡ content_end (Some parts.now) rows bytes.now }
    ensures visits { Visits (V.does bytes.now)
        (found_in_content placed (Some parts.now) rows bytes.now) visit.old visit.new }
    ensures loans { V.loans visit.new ≡ V.loans visit.old }
{
    let behind = walk_parts(parts, bytes, 4, visit)?;
    walk_tail(rows, bytes, behind, visit)
}

// Members or methods to the end, or at most 3 bytes.
fn walk_tail<V: VisitForms>(
    rows: Option<Rows>,
    bytes: &[u8],
    from: usize,
    visit: &mut V,
) -> Result<usize, Malformed>
    requires within { from ≤ length bytes.now }
    requires longest { length bytes.now ≤ 65536 }
    ensures end { result ≡ tail_end rows bytes.now from }
    ensures visits { Visits (V.does bytes.now) (found_behind placed rows bytes.now from)
        visit.old visit.new }
    ensures loans { V.loans visit.new ≡ V.loans visit.old }
{
    match rows {
        Some(rows) => walk_rows(rows, bytes, from, visit),
        None if bytes.len() - from > 3 => Err(wrong(from, Malformed::REST)),
        None => Ok(from),
    }
}

// The place behind the rows that stand from a place to the end.
fn walk_rows<V: VisitForms>(
    rows: Rows,
    bytes: &[u8],
    from: usize,
    visit: &mut V,
) -> Result<usize, Malformed>
    requires within { from ≤ length bytes.now }
    requires longest { length bytes.now ≤ 65536 }
    ensures end { result ≡ rows_end rows (length bytes.now) bytes.now from }
    ensures visits { Visits (V.does bytes.now)
        (found_in_rows placed rows (length bytes.now) bytes.now from) visit.old visit.new }
    ensures loans { V.loans visit.new ≡ V.loans visit.old }
{
    let mut at = from;
    while at < bytes.len() {
        at = walk_row(rows, bytes, at, visit)?;
    }
    Ok(at)
}

// A member or a method. The place behind it.
fn walk_row<V: VisitForms>(
    rows: Rows,
    bytes: &[u8],
    at: usize,
    visit: &mut V,
) -> Result<usize, Malformed>
    requires within { at < length bytes.now }
    requires longest { length bytes.now ≤ 65536 }
    ensures end { result ≡ row_end rows bytes.now at }
    ensures further { IfOk result (λ end. at < end) }
    ensures inside { IfOk result (λ end. end ≤ length bytes.now) }
    ensures visits { Visits (V.does bytes.now) (found_in_row placed rows bytes.now at)
        visit.old visit.new }
    ensures loans { V.loans visit.new ≡ V.loans visit.old }
{
    let row = row_from(rows, bytes, at)?;
    walk_parts(row.parts, bytes, row.at, visit)
}

// The parts that stand from a place on. The place behind them.
fn walk_parts<V: VisitForms>(
    parts: &[Part],
    bytes: &[u8],
    from: usize,
    visit: &mut V,
) -> Result<usize, Malformed>
    requires within { from ≤ length bytes.now }
    requires longest { length bytes.now ≤ 65536 }
    ensures end { result ≡ parts_end parts.now bytes.now (cursor from 0) }
    ensures inside { IfOk result (λ end. end ≤ length bytes.now) }
    ensures visits { Visits (V.does bytes.now) (found_in placed parts.now bytes.now (cursor from 0))
        visit.old visit.new }
    ensures loans { V.loans visit.new ≡ V.loans visit.old }
{
    let mut cursor = Cursor {
        at: from,
        attributes: 0,
    };
    for part in parts {
        let next = past(*part, bytes, cursor)?;
        show(*part, bytes, cursor, visit);
        cursor = next;
    }
    Ok(cursor.at)
}

// Shows a part that is whole, where the attributes before it ask for it.
#[tactic(auto, unfolding(crate::specs::Found::found_at))]
fn show<V: VisitForms>(part: Part, bytes: &[u8], from: Cursor, visit: &mut V)
    requires within { from.at ≤ length bytes.now }
    requires longest { length bytes.now ≤ 65536 }
    requires whole { IsOk (cursor_past part bytes.now from) }
    ensures visits { Visits (V.does bytes.now) (found_at placed part bytes.now from)
        visit.old visit.new }
    ensures loans { V.loans visit.new ≡ V.loans visit.old }
{
    match part {
        Part::Always(form) => visit.form(form, bytes, from.at),
        Part::Where(condition, form) => {
            if holds(condition, from.attributes) {
                visit.form(form, bytes, from.at);
            }
        }
        Part::Attributes(_) => {}
    }
}
