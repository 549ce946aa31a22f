ghost use Rattle.std.specs.Prelude.{◌≡◌, ◌≤◌, ◌<◌, ◌-◌, length, slice_index, IfOk};
ghost use Rattle.leaf_grammar.specs.Leaf.{pad_row, row_at};
ghost use Rattle.leaf_grammar.specs.Rows.{GivesRow};

use crate::grammar::{Malformed, Row, Rows};
use crate::kinds::{member_parts, parts_of_method};
use crate::parts::{skip, wrong};
use byteorder::{ByteOrder, LittleEndian};

// What stands at a place among the members or the methods: the parts behind a member's kind, a
// method, or no part behind a pad.
#[tactic(auto, unfolding(crate::specs::Leaf::row_at))]
pub(crate) fn row_from(rows: Rows, bytes: &[u8], at: usize) -> Result<Row, Malformed>
    requires within { at < length bytes.now }
    requires longest { length bytes.now ≤ 65536 }
    ensures row { GivesRow result (row_at rows bytes.now at) }
    ensures on { IfOk result (λ row. at ≤ row.at) }
    ensures inside { IfOk result (λ row. row.at ≤ length bytes.now) }
{
    match rows {
        Rows::Methods => Ok(Row {
            parts: parts_of_method(),
            at,
        }),
        Rows::Members if bytes[at] >= 0xF0 => past_pad(bytes, at),
        Rows::Members => member(bytes, at),
    }
}

// A byte from F0 on skips as many bytes as its low four bits say, itself counted.
fn past_pad(bytes: &[u8], at: usize) -> Result<Row, Malformed>
    requires within { at < length bytes.now }
    requires longest { length bytes.now ≤ 65536 }
    requires pad { 0xF0 ≤ slice_index bytes.now at }
    ensures row { GivesRow result (pad_row bytes.now at (slice_index bytes.now at - 0xF0)) }
    ensures on { IfOk result (λ row. at ≤ row.at) }
    ensures inside { IfOk result (λ row. row.at ≤ length bytes.now) }
{
    let n = usize::from(bytes[at] - 0xF0);
    if n == 0 {
        return Err(wrong(at, Malformed::MEMBER));
    }
    let end = skip(n, bytes, at)?;
    Ok(Row {
        parts: &[],
        at: end,
    })
}

#[tactic(auto, unfolding(crate::specs::Leaf::row_at))]
fn member(bytes: &[u8], at: usize) -> Result<Row, Malformed>
    requires within { at < length bytes.now }
    requires longest { length bytes.now ≤ 65536 }
    requires member { slice_index bytes.now at < 0xF0 }
    ensures row { GivesRow result (row_at Rows.Members bytes.now at) }
    ensures on { IfOk result (λ row. at ≤ row.at) }
    ensures inside { IfOk result (λ row. row.at ≤ length bytes.now) }
{
    let from = skip(2, bytes, at)?;
    let kind = LittleEndian::read_u16(&bytes[at..]);
    match member_parts(kind) {
        None => Err(wrong(at, Malformed::MEMBER)),
        Some(parts) => Ok(Row { parts, at: from }),
    }
}
