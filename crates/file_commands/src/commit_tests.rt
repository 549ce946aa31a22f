//! New files, and sessions that commit to them.

use crate::running::{bytes_of, device_with, new_file, run_line, settled};
use crate::session_tests::packed;
use program_status::Status;
use srv_edge::{CallKind, Limits, MemDevice};
use std::alloc::Global;
use std::hash::RandomState;
use std::test::Fail;
use type_store::PdbFile;

// An AddType of a modifier and two commits, with what is answered.
const TWO_COMMITS: &str = "0d000000020a000110740000000100f2f1 0100000008 0100000008";

const COMMITTED: &str = "050000008200100000050000008802000000050000008803000000";

// Where the device fails in the first commit.
const FAULTED: &str = "0500000082001000000a000000ff080200000000000000050000008803000000";

const FIRST: &str = "msf block=4096 blocks=9 streams=8 free=0\n\
    pdb age=1 types=0 items=0 names=0\n";

const SECOND: &str = "msf block=4096 blocks=16 streams=8 free=6\n\
    pdb age=2 types=1 items=0 names=0\n";

const THIRD: &str = "msf block=4096 blocks=16 streams=8 free=6\n\
    pdb age=3 types=1 items=0 names=0\n";

const DUMPED: &str = "stream 0 size=0 blocks=0\n\
    stream 1 size=75 blocks=1\n\
    stream 2 size=68 blocks=1\n\
    stream 3 size=0 blocks=0\n\
    stream 4 size=56 blocks=1\n\
    stream 5 size=12 blocks=1\n\
    stream 6 size=0 blocks=0\n\
    stream 7 size=29 blocks=1\n\
    type 00001000 1001 0a000110740000000100f2f1\n";

// What a command prints of a file.
fn shown(alloc: Global, keys: RandomState, line: &str, file: &[u8]) -> Result<String, Fail> {
    let device = device_with(alloc, file, &[])?;
    let (text, _, _) = run_line(alloc, keys, line, "", device)?;
    Ok(String::from_utf8_lossy(alloc, &text)?)
}

// The replies of a session over a file, of whose device these calls fail, its status and the device.
fn session(
    alloc: Global,
    keys: RandomState,
    file: &[u8],
    input: &str,
    fail: &[u32],
) -> Result<(String, Status, MemDevice), Fail> {
    let device = device_with(alloc, file, fail)?;
    let (replies, status, device) = run_line(alloc, keys, "session P", input, device)?;
    Ok((hex::encode(alloc, &replies)?, status, device))
}

// How many calls a session makes before its first request.
fn opening_calls(alloc: Global, keys: RandomState, file: &[u8]) -> Result<u32, Fail> {
    Ok(session(alloc, keys, file, "", &[])?.2.calls())
}

#[test]
fn new_files(rt: HostRuntime) -> Result<(), Fail> {
    let alloc = rt.alloc();
    let keys = RandomState::new(&rt)?;
    let rows = [
        ("init P", 36_864, FIRST),
        (
            "init P --block 32768",
            294_912,
            "msf block=32768 blocks=9 streams=8 free=0\npdb age=1 types=0 items=0 names=0\n",
        ),
    ];
    for (line, size, want) in rows {
        let empty = device_with(alloc, &[], &[])?;
        let (text, status, device) = run_line(alloc, keys, line, "", empty)?;
        assert_eq!(rt; (text.as_slice(), status), (want.as_bytes(), Status::Ok));
        let file = settled(&device)?;
        assert_eq!(rt; file.len(), size);
        assert_eq!(rt; shown(alloc, keys, "check P", &file)?.as_str(), want);
    }
    let file = new_file(alloc, keys, "")?;
    let head = [
        0, 0x10, 0, 0, 1, 0, 0, 0, 9, 0, 0, 0, 0x34, 0, 0, 0, 0, 0, 0, 0, 8, 0, 0, 0,
    ];
    assert_eq!(rt; file.get(32..56), Some(head.as_slice()));
    assert_eq!(rt; file.get(4096..4099), Some([0, 0xfe, 0xff].as_slice()));
    let one = device_with(alloc, &[7], &[])?;
    let (text, status, device) = run_line(alloc, keys, "init P", "", one)?;
    assert_eq!(rt;
        (text.len(), status, status.code()),
        (0, Status::NotEmpty, 12)
    );
    assert_eq!(rt; settled(&device)?, vec![in alloc; 7; 1]?);
    Ok(())
}

// A commit's calls: its blocks and the blocks of the map, then a sync, the superblock and a sync.
fn writes(device: &MemDevice, from: u32, blocks: &[u64]) -> bool {
    let mut call = from;
    for block in blocks {
        let at = block.wrapping_mul(4096);
        if device.kind_at(call) != Some(CallKind::Write { at }) {
            return false;
        }
        call = call.wrapping_add(1);
    }
    device.kind_at(call) == Some(CallKind::Sync)
        && device.kind_at(call.wrapping_add(1)) == Some(CallKind::Super)
        && device.kind_at(call.wrapping_add(2)) == Some(CallKind::Sync)
}

#[test]
fn two_commits(rt: HostRuntime) -> Result<(), Fail> {
    let alloc = rt.alloc();
    let keys = RandomState::new(&rt)?;
    let file = new_file(alloc, keys, "")?;
    let first = opening_calls(alloc, keys, &file)?;
    let (replies, status, device) = session(alloc, keys, &file, TWO_COMMITS, &[])?;
    assert_eq!(rt; (replies.as_str(), status), (COMMITTED, Status::Ok));
    assert!(rt; writes(&device, first, &[9, 10, 11, 12, 13, 14, 15, 2]));
    let second = first.wrapping_add(11);
    assert!(rt; writes(&device, second, &[3, 4, 5, 1]));
    assert_eq!(rt; device.calls(), second.wrapping_add(7));
    let file = settled(&device)?;
    assert_eq!(rt; shown(alloc, keys, "check P", &file)?.as_str(), THIRD);
    let want = format!(in alloc; "{THIRD}{DUMPED}")?;
    assert_eq!(rt; shown(alloc, keys, "dump P", &file)?, want);
    // What was added is there in the next session.
    let get = "05000000 05 00100000";
    let (replies, _, _) = session(alloc, keys, &file, get, &[])?;
    assert_eq!(rt; replies.as_str(), "0d000000850a000110740000000100f2f1");
    Ok(())
}

// Behind two commits one of a name alone, and one of an item alone: the blocks that each writes.
#[test]
fn commits_of_a_name_and_of_an_item(rt: HostRuntime) -> Result<(), Fail> {
    let alloc = rt.alloc();
    let keys = RandomState::new(&rt)?;
    let file = new_file(alloc, keys, "")?;
    let first = opening_calls(alloc, keys, &file)?;
    let name = "0200000004 61 0100000008";
    let item = "0d00000003 0a00051600000000 6100f2f1 0100000008";
    let input = format!(in alloc; "{TWO_COMMITS} {name} {item}")?;
    let (replies, _, device) = session(alloc, keys, &file, input.as_str(), &[])?;
    let more = "0500000084010000000500000088040000000500000083001000000500000088 05000000";
    let want = format!(in alloc; "{COMMITTED}{more}")?;
    assert_eq!(rt; replies, packed(alloc, want.as_str())?);
    let third = first.wrapping_add(18);
    assert!(rt; writes(&device, third, &[6, 7, 8, 9, 2]));
    assert!(rt; writes(&device, third.wrapping_add(8), &[3, 4, 5, 13, 14, 1]));
    Ok(())
}

// Whether each image that a crash leaves after so many calls holds one of two commits.
fn leaves(
    alloc: Global,
    keys: RandomState,
    device: &MemDevice,
    calls: u32,
    wanted: [&str; 2],
) -> Result<bool, Fail> {
    if calls > device.calls() {
        return Err(Fail::new("so many calls were made"));
    }
    for fill in [0x00, 0xff, 0xa5] {
        for last_super in [false, true] {
            let image = device.image(calls, fill, last_super)?;
            let text = shown(alloc, keys, "check P", &image)?;
            if !wanted.contains(&text.as_str()) {
                return Ok(false);
            }
        }
    }
    Ok(true)
}

// A commit that is stopped after each of its calls.
#[test]
fn stopped_commit(rt: HostRuntime) -> Result<(), Fail> {
    let alloc = rt.alloc();
    let keys = RandomState::new(&rt)?;
    let file = new_file(alloc, keys, "")?;
    let first = opening_calls(alloc, keys, &file)?;
    let (_, _, device) = session(alloc, keys, &file, TWO_COMMITS, &[])?;
    for done in 0..11 {
        let calls = first.wrapping_add(done);
        assert!(rt;
            leaves(alloc, keys, &device, calls, [FIRST, SECOND])?,
            "after {done}"
        );
    }
    let calls = first.wrapping_add(11);
    assert!(rt; leaves(alloc, keys, &device, calls, [SECOND, SECOND])?);
    Ok(())
}

// A session in which each call of the device fails in turn: those of the opening end it, and those
// of its first commit are answered as a fault, after which the next commit succeeds.
#[test]
fn each_call_of_a_session_failing(rt: HostRuntime) -> Result<(), Fail> {
    let alloc = rt.alloc();
    let keys = RandomState::new(&rt)?;
    let file = new_file(alloc, keys, "")?;
    let first = opening_calls(alloc, keys, &file)?;
    for call in 0..first {
        let (replies, status, _) = session(alloc, keys, &file, TWO_COMMITS, &[call])?;
        assert_eq!(rt;
            (replies.as_str(), status),
            ("", Status::DiskFault),
            "at {call}"
        );
    }
    for place in 0..11 {
        let call = first.wrapping_add(place);
        let (replies, status, device) = session(alloc, keys, &file, TWO_COMMITS, &[call])?;
        assert_eq!(rt;
            (replies.as_str(), status),
            (FAULTED, Status::Ok),
            "at {place}"
        );
        let between = if place < 9 { FIRST } else { SECOND };
        let failed = call.wrapping_add(1);
        assert!(rt;
            leaves(alloc, keys, &device, failed, [FIRST, between])?,
            "at {place}"
        );
        let text = shown(alloc, keys, "check P", &settled(&device)?)?;
        let age = text.as_str().contains("pdb age=3 types=1 items=0 names=0");
        assert!(rt; age, "at {place}");
    }
    Ok(())
}

// Files that are longer, shorter, and at the last age.
#[test]
fn changed_files(rt: HostRuntime) -> Result<(), Fail> {
    let alloc = rt.alloc();
    let keys = RandomState::new(&rt)?;
    let mut file = new_file(alloc, keys, "")?;
    file.resize(41_864, 0xa5)?;
    assert_eq!(rt; shown(alloc, keys, "check P", &file)?.as_str(), FIRST);
    file.truncate(36_863);
    let text = shown(alloc, keys, "check P", &file)?;
    assert_eq!(rt; text.as_str(), "damage blocks 40\n");
    let mut file = new_file(alloc, keys, "")?;
    for at in 12_296..12_300 {
        if let Some(byte) = file.get_mut(at) {
            *byte = 0xff;
        }
    }
    let (replies, status, _) = session(alloc, keys, &file, "0100000008 0100000009", &[])?;
    let full = "0a000000ff0605000000000000000d00000089000000000000000000000000";
    assert_eq!(rt; (replies.as_str(), status), (full, Status::Ok));
    Ok(())
}

// What a new file becomes with 100 bytes of 7 as stream 3; with 100 bytes in stream 0, whose block
// is free; and with a type server as its one type and adjusters of hashes: at a place these bytes.
const LINKED: &str = "40 0b
    44 3c
    4097 fc
    16396 01
    16400 1c
    16432 0c
    16436 08
    16440 1a001515 00000000000000000000000000000000 01000000 61000000
    28676 64
    28684 54
    28688 64
    28708 0a000000 03000000 04000000 09000000 05000000 06000000";

const LINKED_SHOWN: [&str; 5] = [
    "pdb age=1 types=1 items=0 names=0\n",
    "stream 0 size=100 blocks=1\n",
    "stream 2 size=84 blocks=1\nstream 3 size=100 blocks=1\n",
    "blocks=11 streams=8 free=1\n",
    "type 00001000 1515 1a001515000000000000000000000000000000000100000061000000\n",
];

const LINKED_COMMITTED: [&str; 4] = [
    "pdb age=2 types=1 items=0 names=0\n",
    "stream 0 size=0 blocks=0\n",
    "stream 2 size=84 blocks=1\nstream 3 size=100 blocks=1\n",
    "type 00001000 1515 1a001515000000000000000000000000000000000100000061000000\n",
];

// Writes bytes at places.
fn patch(alloc: Global, file: &mut Vec<u8>, patches: &str) -> Result<(), Fail> {
    for line in patches.lines() {
        let (place, text) = line.trim().split_once(' ').unwrap_or(("", ""));
        let at = place.parse::<u32>().unwrap_or(0) as usize;
        for (byte, there) in bytes_of(alloc, text)?.iter().zip(file.iter_mut().skip(at)) {
            *there = *byte;
        }
    }
    Ok(())
}

// The content of streams 2 and 3 of a file.
fn carried(alloc: Global, keys: RandomState, file: &[u8]) -> Result<(Vec<u8>, Vec<u8>), Fail> {
    let device = device_with(alloc, file, &[])?;
    let Ok((mut file, _)) = PdbFile::open(alloc, keys, device, Limits::STANDARD) else {
        return Err(Fail::new("the file opens"));
    };
    match (file.read_stream(alloc, 2), file.read_stream(alloc, 3)) {
        (Ok(types), Ok(debug)) => Ok((types, debug)),
        _ => Err(Fail::new("the streams are read")),
    }
}

// A linked file opens, and a commit keeps its stream 3, frees stream 0 and drops the adjusters.
#[test]
fn commit_of_a_linked_file(rt: HostRuntime) -> Result<(), Fail> {
    let alloc = rt.alloc();
    let keys = RandomState::new(&rt)?;
    let mut file = new_file(alloc, keys, "")?;
    file.resize(45_056, 7)?;
    patch(alloc, &mut file, LINKED)?;
    let text = shown(alloc, keys, "dump P", &file)?;
    for line in LINKED_SHOWN {
        assert!(rt; text.as_str().contains(line), "{line}");
    }
    let (replies, status, device) = session(alloc, keys, &file, "0100000008", &[])?;
    assert_eq!(rt;
        (replies.as_str(), status),
        ("050000008802000000", Status::Ok)
    );
    let after = settled(&device)?;
    let text = shown(alloc, keys, "dump P", &after)?;
    for line in LINKED_COMMITTED {
        assert!(rt; text.as_str().contains(line), "{line}");
    }
    let (types, debug) = carried(alloc, keys, &after)?;
    assert_eq!(rt; debug, vec![in alloc; 7; 100]?);
    // one hash, one index offset, and no adjusters
    let places = [
        0, 0, 0, 0, 4, 0, 0, 0, 4, 0, 0, 0, 8, 0, 0, 0, 12, 0, 0, 0, 0, 0, 0, 0,
    ];
    assert_eq!(rt; types.get(32..56), Some(places.as_slice()));
    Ok(())
}
