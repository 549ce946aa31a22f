use crate::{BLOCKS, CommitFault, State, Store};
use cow_streams::may_plan;
use msf_blocks::Edit;
use msf_image::{is_packable, new_file, open_image};
use srv_edge::{CallKind, MemDevice, Text};
use std::alloc::{AllocError, Global};
use std::test::Fail;

const MOST_BLOCKS: u32 = 1 << 20;

// The sizes of the streams of a new file.
const SIZES: [usize; 8] = [0, 75, 56, 0, 56, 0, 0, 29];

// The streams that a commit edits, with their new sizes.
const EDITED: [(u32, u32); 5] = [(1, 75), (2, 68), (4, 56), (5, 8), (7, 33)];

// Streams of these sizes, each with its number in every byte.
fn new_streams(alloc: Global) -> Result<Vec<Text>, AllocError> {
    let mut streams = Vec::new(alloc);
    let mut number = 0u8;
    for size in SIZES {
        streams.push(Text::new(vec![in alloc; number; size]?))?;
        number = number.wrapping_add(1);
    }
    Ok(streams)
}

// A file of these streams that is made by the store on an empty device.
fn created(alloc: Global) -> Result<Store<MemDevice>, Fail> {
    let streams = new_streams(alloc)?;
    if !is_packable(4096, &streams) {
        return Err("a packed file can hold these streams".into());
    }
    let device = MemDevice::new(alloc, Vec::new(alloc), Vec::new(alloc));
    match Store::create(alloc, device, 4096, &streams, MOST_BLOCKS) {
        Ok(store) => Ok(store),
        Err((fault, _)) => Err(fault.into()),
    }
}

// The same file, opened on a device of which these calls fail.
fn opened(alloc: Global, fail: &[u32], limit: u32) -> Result<Store<MemDevice>, Fail> {
    let streams = new_streams(alloc)?;
    if limit > MOST_BLOCKS || !is_packable(4096, &streams) {
        return Err("a packed file can hold these streams".into());
    }
    let file = new_file(alloc, 4096, &streams)?;
    let device = MemDevice::new(alloc, file, fail.to_vec(alloc)?);
    match Store::open(alloc, device, limit) {
        Ok(store) => Ok(store),
        Err((fault, _)) => Err(fault.into()),
    }
}

// Commits streams that hold a mark in every byte.
fn commit(
    alloc: Global,
    store: &mut Store<MemDevice>,
    streams: &[(u32, u32)],
    mark: u8,
) -> Result<Result<(), CommitFault>, Fail> {
    let mut edits = Vec::new(alloc);
    for (stream, size) in streams {
        let bytes = vec![in alloc; mark; *size as usize]?;
        edits.push(Edit::new(*stream, 0, bytes, &[], *size))?;
    }
    if !may_plan(store.image(), &edits) {
        return Err("these edits may be planned".into());
    }
    Ok(store.commit(alloc, &edits))
}

// A stream of a file, which is opened anew.
fn stream_of(alloc: Global, file: &[u8], stream: u32) -> Result<Vec<u8>, Fail> {
    let mut device = MemDevice::new(alloc, file.to_vec(alloc)?, Vec::new(alloc));
    let image = open_image(alloc, &mut device, MOST_BLOCKS)?;
    Ok(image.read_stream(alloc, &mut device, stream)?)
}

// The mark of a file: 1 of the new one, whose streams hold their numbers.
fn mark_of(alloc: Global, file: &[u8]) -> Result<u8, Fail> {
    let content = stream_of(alloc, file, 1)?;
    let mark = *content.first().ok_or("stream 1 is not empty")?;
    for (stream, size) in EDITED {
        let old = SIZES.get(stream as usize).copied().unwrap_or(0);
        let want = if mark == 1 {
            vec![in alloc; stream as u8; old]?
        } else {
            vec![in alloc; mark; size as usize]?
        };
        if stream_of(alloc, file, stream)? != want {
            return Err("a stream holds something else".into());
        }
    }
    Ok(mark)
}

// Whether each image that a crash leaves after so many calls has one of two marks.
fn leaves(alloc: Global, device: &MemDevice, calls: u32, one: u8, other: u8) -> Result<bool, Fail> {
    if calls > device.calls() {
        return Err("so many calls were made".into());
    }
    for fill in [0x00, 0xff, 0xa5] {
        for last_super in [false, true] {
            let image = device.image(calls, fill, last_super)?;
            let mark = mark_of(alloc, &image)?;
            if mark != one && mark != other {
                return Ok(false);
            }
        }
    }
    Ok(true)
}

// The writes of these blocks, then a sync, the superblock and a sync.
fn calls_of(alloc: Global, blocks: &[u64]) -> Result<Vec<CallKind>, AllocError> {
    let mut kinds = Vec::new(alloc);
    for block in blocks {
        kinds.push(CallKind::Write {
            at: block.wrapping_mul(4096),
        })?;
    }
    kinds.extend_from_slice(&[CallKind::Sync, CallKind::Super, CallKind::Sync])?;
    Ok(kinds)
}

// A new file and two commits, the second of stream 1 alone: the calls of the device, and what a
// crash leaves after each.
#[test]
fn calls_and_images(rt: HostRuntime) -> Result<(), Fail> {
    let alloc = rt.alloc();
    let device = created(alloc)?.close();
    let file = device.image(device.calls(), 0, true)?;
    let streams = new_streams(alloc)?;
    assert!(rt; is_packable(4096, &streams));
    assert_eq!(rt; file, new_file(alloc, 4096, &streams)?);
    let mut store = created(alloc)?;
    assert_eq!(rt; commit(alloc, &mut store, &EDITED, 11)?, Ok(()));
    assert_eq!(rt; commit(alloc, &mut store, &[(1, 75)], 12)?, Ok(()));
    assert_eq!(rt; store.state(), State::Settled);
    assert_eq!(rt; store.read_stream(alloc, 2)?, vec![in alloc; 11; 68]?);
    let device = store.close();
    let mut wanted = calls_of(alloc, &[3, 4, 5, 6, 7, 8, 1])?;
    wanted.extend_from_slice(&calls_of(alloc, &[9, 10, 11, 12, 13, 14, 15, 2])?)?;
    wanted.extend_from_slice(&calls_of(alloc, &[3, 4, 5, 1])?)?;
    for (call, kind) in (0..).zip(wanted) {
        assert_eq!(rt; device.kind_at(call), Some(kind), "at {call}");
    }
    for calls in 10..21 {
        assert!(rt; leaves(alloc, &device, calls, 1, 11)?, "after {calls}");
    }
    assert!(rt; leaves(alloc, &device, 21, 11, 11)?);
    Ok(())
}

// What is left of a new file by a commit in which a call fails.
fn refused(
    alloc: Global,
    store: &mut Store<MemDevice>,
    mark: u8,
    state: State,
) -> Result<bool, Fail> {
    let faults = store.faults();
    let answer = commit(alloc, store, &EDITED, mark)?;
    Ok(
        answer == Err(CommitFault::DiskFault)
            && store.state() == state
            && store.faults() == faults.saturating_add(1),
    )
}

// A commit of which one call fails, and the next one: the state between, the call with which the
// next one begins, and what a crash may leave.
#[test]
fn each_call_failing(rt: HostRuntime) -> Result<(), Fail> {
    let alloc = rt.alloc();
    let first = opened(alloc, &[], MOST_BLOCKS)?.close().calls();
    for place in 0..11 {
        let failing = first.wrapping_add(place);
        let mut store = opened(alloc, &[failing], MOST_BLOCKS)?;
        let (state, old, kind) = if place < 9 {
            (State::Settled, 1, CallKind::Write { at: 9 * 4096 })
        } else {
            (State::Doubt, 11, CallKind::Super)
        };
        assert!(rt; refused(alloc, &mut store, 11, state)?, "at {place}");
        assert_eq!(rt; commit(alloc, &mut store, &EDITED, 12)?, Ok(()));
        let device = store.close();
        assert_eq!(rt;
            device.kind_at(failing.wrapping_add(1)),
            Some(kind),
            "at {place}"
        );
        assert!(rt; leaves(alloc, &device, failing.wrapping_add(1), 1, old)?);
        assert!(rt; leaves(alloc, &device, device.calls(), 12, 12)?);
    }
    Ok(())
}

// A doubt that two commits cannot settle, and a third one does; and a commit past the limit.
#[test]
fn doubt_and_limit(rt: HostRuntime) -> Result<(), Fail> {
    let alloc = rt.alloc();
    let first = opened(alloc, &[], MOST_BLOCKS)?.close().calls();
    // The superblock or the last sync of the first commit fails, and then the superblock or the
    // sync that is to settle it.
    for (place, settling) in [(9, 0), (9, 1), (10, 0), (10, 1)] {
        let failing = first.wrapping_add(place);
        let again = failing.wrapping_add(settling).wrapping_add(1);
        let mut store = opened(alloc, &[failing, again], MOST_BLOCKS)?;
        assert!(rt; refused(alloc, &mut store, 11, State::Doubt)?);
        assert!(rt; refused(alloc, &mut store, 12, State::Doubt)?);
        assert_eq!(rt; commit(alloc, &mut store, &EDITED, 13)?, Ok(()));
        let device = store.close();
        let third = again.wrapping_add(1);
        for calls in failing..=third {
            assert!(rt; leaves(alloc, &device, calls, 1, 11)?, "after {calls}");
        }
        let settled = third.wrapping_add(2);
        assert!(rt; leaves(alloc, &device, settled, 11, 11)?);
        assert!(rt; leaves(alloc, &device, device.calls(), 13, 13)?);
    }
    let mut store = opened(alloc, &[], 15)?;
    let full = CommitFault::Full {
        which: BLOCKS,
        needed: 16,
    };
    assert_eq!(rt; commit(alloc, &mut store, &EDITED, 11)?, Err(full));
    assert_eq!(rt; store.close().calls(), first);
    Ok(())
}
