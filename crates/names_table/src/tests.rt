//! The names of the protocol's example: each takes its bytes and a NUL behind the NUL of the empty
//! name.
ghost use Rattle.names_table.specs.Names.{IsName};

use crate::{NameFault, NamesFault, NamesTable, read_names};
use srv_edge::Limits;
use std::alloc::Global;
use std::hash::RandomState;
use std::test::Fail;

// Whether an add gives this answer, and the table then has so many names and bytes.
fn adds(
    table: &mut NamesTable,
    name: &[u8],
    answer: Result<u32, NameFault>,
    size: (u32, u32),
) -> bool
    requires { IsName name.now }
{
    table.add(name) == answer && (table.len(), table.bytes()) == size
}

#[test]
fn names_at_their_offsets(rt: HostRuntime) -> Result<(), Fail> {
    let limits = Limits {
        records: 1,
        bytes: 4,
        name_bytes: 6,
        calls: 1,
        blocks: 9,
    };
    let mut table = NamesTable::new(rt.alloc(), RandomState::new(&rt)?, limits, 1)?;
    assert!(rt; table.is_empty());
    assert!(rt; adds(&mut table, b"", Ok(0), (0, 1)));
    assert!(rt; adds(&mut table, b"a", Ok(1), (1, 3)));
    assert!(rt; adds(&mut table, b"bc", Ok(3), (2, 6)));
    assert!(rt; adds(&mut table, b"a", Ok(1), (2, 6)));
    assert!(rt; adds(&mut table, b"c", Err(NameFault::Full { needed: 8 }), (2, 6)));
    let found: [(u32, Option<&[u8]>); 6] = [
        (0, Some(b"")),
        (1, Some(b"a")),
        (2, None),
        (3, Some(b"bc")),
        (4, None),
        (6, None),
    ];
    for (offset, name) in found {
        assert_eq!(rt; table.get(offset), name, "at {offset}");
    }
    assert!(rt; !table.is_empty());
    Ok(())
}

// The stream with no names.
const NO_NAMES: [u8; 29] = [
    0xFE, 0xEF, 0xFE, 0xEF, 1, 0, 0, 0, 1, 0, 0, 0, 0, 2, 0, 0, 0, 0, 0, 0, 0, 0, 0, 0, 0, 0, 0, 0,
    0,
];

// With the names `a` and `bc`.
const TWO_NAMES: [u8; 42] = [
    0xFE, 0xEF, 0xFE, 0xEF, 1, 0, 0, 0, 6, 0, 0, 0, 0, b'a', 0, b'b', b'c', 0, 4, 0, 0, 0, 0, 0, 0,
    0, 1, 0, 0, 0, 3, 0, 0, 0, 0, 0, 0, 0, 2, 0, 0, 0,
];

// The same with the second version of the hashes, by which both fall into the last bucket.
const GOING_ROUND: [u8; 42] = [
    0xFE, 0xEF, 0xFE, 0xEF, 2, 0, 0, 0, 6, 0, 0, 0, 0, b'a', 0, b'b', b'c', 0, 4, 0, 0, 0, 3, 0, 0,
    0, 0, 0, 0, 0, 0, 0, 0, 0, 1, 0, 0, 0, 2, 0, 0, 0,
];

// With the names `a`, the empty one, `bc`, `a` and the empty one.
const EQUAL_NAMES: [u8; 62] = [
    0xFE, 0xEF, 0xFE, 0xEF, 1, 0, 0, 0, 10, 0, 0, 0, 0, b'a', 0, 0, b'b', b'c', 0, b'a', 0, 0, 8,
    0, 0, 0, 3, 0, 0, 0, 1, 0, 0, 0, 4, 0, 0, 0, 7, 0, 0, 0, 9, 0, 0, 0, 0, 0, 0, 0, 0, 0, 0, 0, 0,
    0, 0, 0, 5, 0, 0, 0,
];

// How many names and bytes are read of a stream with one byte changed.
fn sizes(
    alloc: Global,
    keys: RandomState,
    stream: &mut [u8],
    change: (usize, u8),
) -> Result<(u32, u32), NamesFault> {
    if change.0 < stream.len() {
        stream[change.0] = change.1;
    }
    let table = read_names(alloc, keys, stream, Limits::STANDARD)?;
    Ok((table.len(), table.bytes()))
}

#[test]
fn streams_read(rt: HostRuntime) -> Result<(), Fail> {
    let alloc = rt.alloc();
    let keys = RandomState::new(&rt)?;
    let mut stream = TWO_NAMES;
    let two = sizes(alloc, keys, &mut stream, (18, 4));
    assert!(rt; two == Ok((2, 6)));
    let cases = [
        ((13, 2), Ok((0, 1))),
        ((0, 0), Err(NamesFault::Header { at: 0 })),
        ((4, 3), Err(NamesFault::Header { at: 4 })),
        ((8, 18), Err(NamesFault::Size { at: 8 })),
        ((12, 1), Err(NamesFault::Text { at: 12 })),
        ((8, 2), Err(NamesFault::Text { at: 13 })),
    ];
    for (change, want) in cases {
        let mut stream = NO_NAMES;
        let found = sizes(alloc, RandomState::new(&rt)?, &mut stream, change);
        assert!(rt; found == want, "{}", change.0);
    }
    Ok(())
}

// The bytes that are written of the names that are read.
fn written(alloc: Global, keys: RandomState, stream: &[u8]) -> Result<Vec<u8>, NamesFault> {
    let table = read_names(alloc, keys, stream, Limits::STANDARD)?;
    Ok(table.write_names(alloc)?)
}

#[test]
fn streams_written(rt: HostRuntime) -> Result<(), Fail> {
    let streams: [&[u8]; 4] = [&NO_NAMES, &TWO_NAMES, &GOING_ROUND, &EQUAL_NAMES];
    for stream in streams {
        let text = written(rt.alloc(), RandomState::new(&rt)?, stream).ok();
        let text = text.ok_or("it is read and written")?;
        assert!(rt; text.as_slice() == stream, "{}", text.len());
    }
    Ok(())
}

#[test]
fn equal_and_empty_names_keep_their_places(rt: HostRuntime) -> Result<(), Fail> {
    let mut limits = Limits::STANDARD;
    limits.name_bytes = 12;
    let keys = RandomState::new(&rt)?;
    let table = read_names(rt.alloc(), keys, &EQUAL_NAMES, limits).ok();
    let mut table = table.ok_or("it is read")?;
    assert!(rt; adds(&mut table, b"a", Ok(1), (5, 10)));
    assert!(rt; adds(&mut table, b"", Ok(0), (5, 10)));
    assert!(rt; adds(&mut table, b"bc", Ok(4), (5, 10)));
    assert!(rt; adds(&mut table, b"c", Ok(10), (6, 12)));
    let found: [(u32, Option<&[u8]>); 7] = [
        (1, Some(b"a")),
        (2, None),
        (3, Some(b"")),
        (4, Some(b"bc")),
        (7, Some(b"a")),
        (9, Some(b"")),
        (10, Some(b"c")),
    ];
    for (offset, name) in found {
        assert_eq!(rt; table.get(offset), name, "at {offset}");
    }
    Ok(())
}
