//! Sessions over a hub, by their frames as hexadecimal text.
use crate::files::{Left, bytes_of};
use crate::{Seats, end, make_hub, serve};
use hub::Ended;
use srv_edge::{Limits, MemDevice, MemLink, MemSink, MemSource, Room};
use std::alloc::Global;
use std::hash::RandomState;
use std::sync::Wait;
use std::test::Fail;

// A link by which these frames come.
fn link(alloc: Global, text: &str) -> Result<MemLink, Fail> {
    let frames = bytes_of(alloc, text)?;
    Ok(MemLink {
        source: MemSource::new(frames, 65_536, Vec::new(alloc)),
        sink: MemSink::new(alloc, Vec::new(alloc)),
    })
}

// What comes back, and how many calls the hub's journal then has.
fn replies<R: Wait>(
    rt: &R,
    alloc: Global,
    keys: RandomState,
    limits: Limits,
    text: &str,
) -> Result<(Vec<u8>, u32), Fail> {
    let mut room = Room::new(alloc)?;
    let mut link = link(alloc, text)?;
    let Some(seats) = make_hub(alloc, keys, limits) else {
        return Err(Fail::new("no hub"));
    };
    let Seats {
        hub,
        first,
        one,
        two,
        three,
    } = seats;
    let one = serve(rt, &hub, one, &mut link, &mut room);
    let left = end(Seats {
        hub,
        first,
        one,
        two,
        three,
    });
    Ok((link.sink.taken().to_vec(alloc)?, left.journal.len()))
}

// The first line of these rows whose frames are answered otherwise than it says, or by another number of
// calls.
fn first_wrong<'a, R: Wait>(
    rt: &R,
    alloc: Global,
    keys: RandomState,
    limits: Limits,
    rows: &[(u32, &'a str)],
) -> Result<Option<&'a str>, Fail> {
    for (calls, row) in rows {
        let row: &'a str = *row;
        let (frames, want) = row.split_once('=').unwrap_or((row, ""));
        let (got, made) = replies(rt, alloc, keys, limits, frames)?;
        if got != bytes_of(alloc, want)? || made != *calls {
            return Ok(Some(row));
        }
    }
    Ok(None)
}

// Names; items; two commits. What is no leaf and what is greeted is no call, and a commit is two.
static ROWS: [(u32, &str); 3] = [
    (
        6,
        "0100000004 020000000461 03000000046263 020000000461 050000000702000000 050000000703000000 = 050000008400000000 050000008401000000 050000008403000000 050000008401000000 0a000000ff050200000002000000 03000000876263",
    ),
    (
        3,
        "0d000000030a000516000000006100f2f1 050000000600100000 11000000030e00011600000000001000006600f2f1 0d000000020a000516000000006100f2f1 = 050000008300100000 0d000000860a000516000000006100f2f1 0a000000ff050000000000100000 0a000000ff040200000002000000",
    ),
    (
        5,
        "0d000000020a000110740000000100f2f1 0100000008 0100000008 010000000a = 050000008200100000 050000008802000000 050000008803000000 010000008a",
    ),
];

// Small limits: one record, 20 bytes of records, 3 bytes of names. Each refusal is a call.
const ONE_RECORD: &str =
    "0d000000020a000110740000000100f2f1 0d000000020a000110740000000100f1f1 0d000000020a000110740000000100f2f1 = 050000008200100000 0a000000ff060100000001000000 050000008200100000";

const FEW_BYTES: &str =
    "0d000000020a000110740000000100f2f1 0d000000020a000110740000000100f1f1 = 050000008200100000 0a000000ff060200000018000000";

const FEW_NAMES: &str =
    "020000000461 020000000462 020000000461 = 050000008401000000 0a000000ff060300000005000000 050000008401000000";

// The standard limits, but that a table has so many records and bytes, the names so many bytes, and the
// hub so many calls.
fn limits_of(records: u8, bytes: u8, name_bytes: u8, calls: u8) -> Limits {
    let mut limits = Limits::STANDARD;
    limits.records = u32::from(records);
    limits.bytes = u32::from(bytes);
    limits.name_bytes = u32::from(name_bytes).max(1);
    limits.calls = u32::from(calls);
    limits
}

#[test]
fn frames_by_their_replies(rt: HostRuntime) -> Result<(), Fail> {
    let keys = RandomState::new(&rt)?;
    let wrong = first_wrong(&rt, rt.alloc(), keys, Limits::STANDARD, &ROWS)?;
    assert_eq!(rt; wrong, None);
    Ok(())
}

#[test]
fn small_limits(rt: HostRuntime) -> Result<(), Fail> {
    let keys = RandomState::new(&rt)?;
    for (limits, calls, row) in [
        (limits_of(1, 100, 100, 100), 3, ONE_RECORD),
        (limits_of(100, 20, 100, 100), 2, FEW_BYTES),
        (limits_of(100, 100, 3, 100), 3, FEW_NAMES),
    ] {
        let wrong = first_wrong(&rt, rt.alloc(), keys, limits, &[(calls, row)])?;
        assert_eq!(rt; wrong, None);
    }
    Ok(())
}

// Where there are places for two calls: two are answered and no third, but for what takes no place; a
// commit wants two places, and counts one.
static TWO_CALLS: [(u32, &str); 3] = [
    (
        2,
        "0d000000020a000110740000000100f2f1 0100000009 050000000500100000 0d000000020a000516000000006100f2f1 03000000010100 = 050000008200100000 0d00000089010000000000000000000000 0a000000ff060400000002000000 0a000000ff040200000002000000 03000000810100",
    ),
    (
        2,
        "0d000000020a000110740000000100f2f1 0100000008 0100000009 0100000009 = 050000008200100000 0a000000ff060400000002000000 0d00000089010000000000000000000000 0a000000ff060400000002000000",
    ),
    (
        2,
        "0100000008 020000000461 = 050000008802000000 0a000000ff060400000002000000",
    ),
];

#[test]
fn two_calls_of_a_session(rt: HostRuntime) -> Result<(), Fail> {
    let keys = RandomState::new(&rt)?;
    let limits = limits_of(100, 100, 100, 2);
    let wrong = first_wrong(&rt, rt.alloc(), keys, limits, &TWO_CALLS)?;
    assert_eq!(rt; wrong, None);
    Ok(())
}

// What one adds and commits, another gets; what the other adds behind it is not in the file.
const ADDS: &str = "0d000000020a000110740000000100f2f1 0100000008 010000000a";

const GETS: &str = "050000000500100000 0d000000020a000110740000000100f1f1 010000000a";

// Serves the one link and then the other, by passes of two callers.
fn serve_both<R: Wait>(
    rt: &R,
    alloc: Global,
    keys: RandomState,
    one_link: &mut MemLink,
    other_link: &mut MemLink,
) -> Result<Ended<MemDevice>, Fail> {
    let mut room = Room::new(alloc)?;
    let Some(seats) = make_hub(alloc, keys, Limits::STANDARD) else {
        return Err(Fail::new("no hub"));
    };
    let Seats {
        hub,
        first,
        one,
        two,
        three,
    } = seats;
    let one = serve(rt, &hub, one, one_link, &mut room);
    let two = serve(rt, &hub, two, other_link, &mut room);
    Ok(end(Seats {
        hub,
        first,
        one,
        two,
        three,
    }))
}

// What comes back from the two.
const ADDED: &str = "050000008200100000 050000008802000000 010000008a";

const GOT: &str = "0d000000850a000110740000000100f2f1 050000008201100000 010000008a";

#[test]
fn two_sessions(rt: HostRuntime) -> Result<(), Fail> {
    let alloc = rt.alloc();
    let keys = RandomState::new(&rt)?;
    let mut adds = link(alloc, ADDS)?;
    let mut gets = link(alloc, GETS)?;
    let ended = serve_both(&rt, alloc, keys, &mut adds, &mut gets)?;
    let left = Left::of(alloc, keys, ended)?;
    assert_eq!(rt; adds.sink.taken(), bytes_of(alloc, ADDED)?.as_slice());
    assert_eq!(rt; gets.sink.taken(), bytes_of(alloc, GOT)?.as_slice());
    assert_eq!(rt; (left.words.len(), left.age, left.types), (5, 2, 1));
    Ok(())
}
