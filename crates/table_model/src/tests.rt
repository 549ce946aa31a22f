//! Calls on a plain table by their answers.
ghost use Rattle.std.specs.Prelude.{IfSome, ◌<◌, ◌^◌, length};
ghost use Rattle.table_model.specs.Plain.{BringsName};

use super::*;
use srv_edge::{Limits, RecordList, Refusal, Text};
use std::alloc::Global;
use std::process::Abort;
use std::test::Fail;

// A modifier of the simple type 74.
const R: &[u8] = b"\x0A\x00\x01\x10\x74\x00\x00\x00\x01\x00\xF2\xF1";

// The same with other padding.
const PADDED: &[u8] = b"\x0A\x00\x01\x10\x74\x00\x00\x00\x01\x00\xF1\xF1";

// A modifier of the type 1000.
const MODIFIER: &[u8] = b"\x0A\x00\x01\x10\x00\x10\x00\x00\x01\x00\xF2\xF1";

// A list of the types 1002 and 1001.
const LIST: &[u8] = b"\x0E\x00\x01\x12\x02\x00\x00\x00\x02\x10\x00\x00\x01\x10\x00\x00";

// A string, which is an item, and the name of a function of type 1000.
const STRING: &[u8] = b"\x0A\x00\x05\x16\x00\x00\x00\x00\x61\x00\xF2\xF1";

const FUNCTION: &[u8] = b"\x0E\x00\x01\x16\x00\x00\x00\x00\x00\x10\x00\x00\x66\x00\xF2\xF1";

// A call, with what it brings.
enum Ask {
    AddType(&'static [u8]),
    AddItem(&'static [u8]),
    AddName(&'static [u8]),
    GetType(u32),
    GetItem(u32),
    GetName(u32),
    Counts,
}

// What an answer is to be.
enum Want {
    Index(u32),
    Bytes(&'static [u8]),
    Counts(u32, u32, u32),
    Malformed(u32, u8),
    NotGiven(u8, u32),
    Full(u8, u32),
}

// The call, if its name is one.
fn call_of(alloc: Global, ask: &Ask) -> Option<Call>
    ensures { IfSome result BringsName }
{
    Some(match ask {
        Ask::AddType(record) => Call::AddType(Text::new(record.to_vec(alloc).ok()?)),
        Ask::AddItem(record) => Call::AddItem(Text::new(record.to_vec(alloc).ok()?)),
        Ask::AddName(name) => name_call(alloc, name)?,
        Ask::GetType(index) => Call::GetType(*index),
        Ask::GetItem(index) => Call::GetItem(*index),
        Ask::GetName(offset) => Call::GetName(*offset),
        Ask::Counts => Call::Counts,
    })
}

fn name_call(alloc: Global, name: &[u8]) -> Option<Call>
    ensures { IfSome result BringsName }
{
    if name.len() > 65_535 || name.contains(&0) {
        return None;
    }
    Some(Call::AddName(Text::new(name.to_vec(alloc).ok()?)))
}

fn is_wanted(answer: &Result<Outcome, Refusal>, want: &Want) -> bool {
    match (answer, want) {
        (Ok(Outcome::Index(n)), Want::Index(m)) => n == m,
        (Ok(Outcome::Bytes(bytes)), Want::Bytes(wanted)) => bytes.bytes() == *wanted,
        (Ok(Outcome::Counts(t, i, n)), Want::Counts(a, b, c)) => t == a && i == b && n == c,
        (Err(Refusal::Malformed { at, what }), Want::Malformed(a, b)) => at == a && what == b,
        (Err(Refusal::NotGiven { space, index }), Want::NotGiven(a, b)) => space == a && index == b,
        (Err(Refusal::Full { which, needed }), Want::Full(a, b)) => which == a && needed == b,
        _ => false,
    }
}

// Each call on one table, from empty lists, has this answer.
fn talk(rt: &impl Abort, alloc: Global, limits: Limits, rows: &[(Ask, Want)]) -> Result<(), Fail> {
    let mut table = PlainTable::new(alloc, limits);
    for (place, (ask, want)) in rows.iter().enumerate() {
        let call = call_of(alloc, ask).ok_or("no name")?;
        let answer = table.answer(&call);
        assert!(rt; is_wanted(&answer, want), "call {place}");
    }
    Ok(())
}

// Where two fields name nothing, the first from the left is told.
static RECORDS: [(Ask, Want); 16] = [
    (Ask::AddType(LIST), Want::NotGiven(0, 0x1002)),
    (Ask::GetType(0x1000), Want::NotGiven(0, 0x1000)),
    (Ask::GetType(0x74), Want::NotGiven(0, 0x74)),
    (Ask::AddType(MODIFIER), Want::NotGiven(0, 0x1000)),
    (Ask::Counts, Want::Counts(0, 0, 0)),
    (Ask::AddType(R), Want::Index(0x1000)),
    (Ask::AddType(R), Want::Index(0x1000)),
    (Ask::Counts, Want::Counts(1, 0, 0)),
    (Ask::GetType(0x1000), Want::Bytes(R)),
    (Ask::AddType(MODIFIER), Want::Index(0x1001)),
    (Ask::AddType(LIST), Want::NotGiven(0, 0x1002)),
    (Ask::AddType(PADDED), Want::Index(0x1002)),
    (Ask::AddType(LIST), Want::Index(0x1003)),
    (Ask::AddType(R), Want::Index(0x1000)),
    (Ask::GetType(0x1003), Want::Bytes(LIST)),
    (Ask::GetType(0x1004), Want::NotGiven(0, 0x1004)),
];

static ITEMS: [(Ask, Want); 8] = [
    (Ask::AddItem(FUNCTION), Want::NotGiven(0, 0x1000)),
    (Ask::AddItem(STRING), Want::Index(0x1000)),
    (Ask::GetItem(0x1000), Want::Bytes(STRING)),
    (Ask::AddType(STRING), Want::Malformed(2, 2)),
    (Ask::GetItem(0x1001), Want::NotGiven(1, 0x1001)),
    (Ask::AddType(R), Want::Index(0x1000)),
    (Ask::AddItem(FUNCTION), Want::Index(0x1001)),
    (Ask::Counts, Want::Counts(1, 2, 0)),
];

static NAMES: [(Ask, Want); 9] = [
    (Ask::AddName(b""), Want::Index(0)),
    (Ask::AddName(b"a"), Want::Index(1)),
    (Ask::AddName(b"bc"), Want::Index(3)),
    (Ask::AddName(b"a"), Want::Index(1)),
    (Ask::GetName(2), Want::NotGiven(2, 2)),
    (Ask::GetName(3), Want::Bytes(b"bc")),
    (Ask::GetName(0), Want::Bytes(b"")),
    (Ask::GetName(6), Want::NotGiven(2, 6)),
    (Ask::Counts, Want::Counts(0, 0, 2)),
];

#[test]
fn answers_of_one_table(rt: HostRuntime) -> Result<(), Fail> {
    talk(&rt, rt.alloc(), Limits::STANDARD, &RECORDS)?;
    talk(&rt, rt.alloc(), Limits::STANDARD, &ITEMS)?;
    talk(&rt, rt.alloc(), Limits::STANDARD, &NAMES)
}

// So many records, bytes and bytes of names fit, and one more does not. What is there is still
// answered.
static LIMITED: [(u8, u8, u8, &[(Ask, Want)]); 5] = [
    (
        1,
        255,
        1,
        &[
            (Ask::AddType(R), Want::Index(0x1000)),
            (Ask::AddType(PADDED), Want::Full(1, 1)),
            (Ask::AddType(R), Want::Index(0x1000)),
            (Ask::AddItem(STRING), Want::Index(0x1000)),
        ],
    ),
    (
        9,
        20,
        1,
        &[
            (Ask::AddType(R), Want::Index(0x1000)),
            (Ask::AddType(PADDED), Want::Full(2, 24)),
            (Ask::AddType(R), Want::Index(0x1000)),
            (Ask::Counts, Want::Counts(1, 0, 0)),
        ],
    ),
    (
        9,
        24,
        1,
        &[
            (Ask::AddType(R), Want::Index(0x1000)),
            (Ask::AddType(PADDED), Want::Index(0x1001)),
            (Ask::AddType(MODIFIER), Want::Full(2, 36)),
            (Ask::AddName(b"a"), Want::Full(3, 3)),
        ],
    ),
    (
        9,
        9,
        3,
        &[
            (Ask::AddName(b"a"), Want::Index(1)),
            (Ask::AddName(b"b"), Want::Full(3, 5)),
            (Ask::AddName(b"a"), Want::Index(1)),
            (Ask::AddName(b""), Want::Index(0)),
        ],
    ),
    (
        0,
        9,
        5,
        &[
            (Ask::AddName(b"a"), Want::Index(1)),
            (Ask::AddName(b"b"), Want::Index(3)),
            (Ask::AddName(b"c"), Want::Full(3, 7)),
            (Ask::AddType(R), Want::Full(1, 0)),
        ],
    ),
];

#[test]
fn answers_at_the_limits(rt: HostRuntime) -> Result<(), Fail> {
    for (records, bytes, name_bytes, rows) in &LIMITED {
        let limits = Limits {
            records: u32::from(*records),
            bytes: u32::from(*bytes),
            name_bytes: u32::from(*name_bytes).max(1),
            calls: 1,
            blocks: 9,
        };
        talk(&rt, rt.alloc(), limits, rows)?;
    }
    Ok(())
}
