//! The limits of a session, each at its number and one past it, by the replies and by what the file
//! then holds.
use crate::failing_tests::{device_of, new_file, opened};
use crate::tests::{bytes_of, first_wrong, served};
use srv_edge::{CallKind, Limits, MemDevice};
use std::alloc::Global;
use std::hash::RandomState;
use std::test::Fail;
use type_store::PdbFile;

// Two records in a table: of types, of items, and of a list of types. What is refused is not there, and
// what is there is still answered.
const TWO_RECORDS: &str = "\
0d000000020a000110740000000100f2f1 0d000000020a000110740000000200f2f1 0d000000020a000110740000000300f2f1 0100000009 050000000502100000 0d000000020a000110740000000200f2f1 = 050000008200100000 050000008201100000 0a000000ff060100000002000000 0d00000089020000000000000000000000 0a000000ff050000000002100000 050000008201100000
0d000000030a000516000000006100f2f1 0d000000030a000516000000006200f2f1 0d000000030a000516000000006300f2f1 0100000009 050000000602100000 0d000000030a000516000000006200f2f1 0d000000020a000110740000000100f2f1 = 050000008300100000 050000008301100000 0a000000ff060100000002000000 0d00000089000000000200000000000000 0a000000ff050100000002100000 050000008301100000 050000008200100000
03000000010200 350000000b070000000a000110740000000100f2f10a000110740000000200f2f10a000110740000000300f2f10a000110740000000100f2f1 = 03000000810200 290000008b07000000000010000000000000000110000000000000060100000002000000000010000000000000";

// No record, and one: also where the bytes are passed too, the records are told.
const NO_RECORD: &str =
    "0d000000020a000110740000000100f2f1 0100000009 = 0a000000ff060100000000000000 0d00000089000000000000000000000000";

const ONE_RECORD: &str =
    "0d000000020a000110740000000100f2f1 0d000000020a000110740000000100f1f1 0d000000020a000110740000000100f2f1 = 050000008200100000 0a000000ff060100000001000000 050000008200100000";

// 20 bytes of records, and 3 of names.
const FEW_BYTES: &str = "\
0d000000020a000110740000000100f2f1 0d000000020a000110740000000100f1f1 = 050000008200100000 0a000000ff060200000018000000
020000000461 020000000462 020000000461 = 050000008401000000 0a000000ff060300000005000000 050000008401000000";

// 24 bytes of records in a table, and 5 of names. A shorter record than the refused one still has its place.
const TWO_OF_TWELVE: &str = "\
0d000000020a000110740000000100f2f1 0d000000020a000110740000000200f2f1 0d000000020a000110740000000300f2f1 0100000009 0d000000020a000110740000000100f2f1 = 050000008200100000 050000008201100000 0a000000ff060200000024000000 0d00000089020000000000000000000000 050000008200100000
0d000000020a000110740000000100f2f1 11000000020e000112020000007400000074000000 0d000000020a000110740000000200f2f1 = 050000008200100000 0a000000ff06020000001c000000 050000008201100000
0d000000030a000516000000006100f2f1 0d000000030a000516000000006200f2f1 0d000000030a000516000000006300f2f1 0100000009 0d000000020a000110740000000100f2f1 = 050000008300100000 050000008301100000 0a000000ff060200000024000000 0d00000089000000000200000000000000 050000008200100000
020000000461 020000000462 020000000463 0100000009 050000000705000000 050000000703000000 020000000462 0100000004 = 050000008401000000 050000008403000000 0a000000ff060300000007000000 0d00000089000000000000000002000000 0a000000ff050200000005000000 020000008762 050000008403000000 050000008400000000";

// One byte of names, that of the empty name.
const NO_NAME: &str =
    "0100000004 020000000461 0100000009 = 050000008400000000 0a000000ff060300000003000000 0d00000089000000000000000000000000";

// The standard limits, but that a table has so many records and bytes, and the names so many bytes.
fn limits_of(records: u8, bytes: u8, name_bytes: u8) -> Limits {
    let mut limits = Limits::STANDARD;
    limits.records = u32::from(records);
    limits.bytes = u32::from(bytes);
    limits.name_bytes = u32::from(name_bytes).max(1);
    limits
}

#[test]
fn small_limits(rt: HostRuntime) -> Result<(), Fail> {
    let keys = RandomState::new(&rt)?;
    for (limits, rows) in [
        (limits_of(2, 100, 100), TWO_RECORDS),
        (limits_of(0, 100, 100), NO_RECORD),
        (limits_of(1, 12, 100), ONE_RECORD),
        (limits_of(100, 20, 3), FEW_BYTES),
        (limits_of(100, 24, 5), TWO_OF_TWELVE),
        (limits_of(100, 100, 1), NO_NAME),
    ] {
        assert_eq!(rt; first_wrong(rt.alloc(), keys, limits, rows)?, None);
    }
    Ok(())
}

// Whether a device's file opens to an age, with so many types and no items.
fn holds(
    alloc: Global,
    keys: RandomState,
    device: &MemDevice,
    age: u32,
    types: u32,
) -> Result<bool, Fail> {
    let file = device.image(device.calls(), 0, true)?;
    let device = MemDevice::new(alloc, file, Vec::new(alloc));
    match PdbFile::open(alloc, keys, device, Limits::STANDARD) {
        Ok((file, tables)) => {
            Ok(file.age() == age && tables.types.len() == types && tables.items.len() == 0)
        }
        Err(_) => Ok(false),
    }
}

// A new file with the last number but one.
fn last_but_one(alloc: Global, keys: RandomState) -> Result<Vec<u8>, Fail> {
    let mut file = new_file(alloc, keys)?;
    for (at, byte) in (1_544..1_548).zip([0xfe, 0xff, 0xff, 0xff]) {
        if let Some(place) = file.get_mut(at) {
            *place = byte;
        }
    }
    Ok(file)
}

// A modifier and a commit, another and a commit, and the counts.
const TWICE: &str =
    "0d000000020a000110740000000100f2f1 0100000008 0d000000020a000110740000000200f2f1 0100000008 0100000009";

// What is answered: the first commit has the last number, whether it is written or fails.
const LAST_WRITTEN: &str =
    "050000008200100000 0500000088ffffffff 050000008201100000 0a000000ff060500000000000000 0d00000089020000000000000000000000";

const LAST_FAULTED: &str =
    "050000008200100000 0a000000ff08ffffffff00000000 050000008201100000 0a000000ff060500000000000000 0d00000089020000000000000000000000";

// Which call behind the opening fails, counted from 1, where 0 is none; what is answered; how many calls
// are made; and the age of the file and its types then.
const LAST_ROWS: [(u32, &str, u32, u32, u32); 3] = [
    (0, LAST_WRITTEN, 11, 0xffff_ffff, 1),
    (1, LAST_FAULTED, 1, 0xffff_fffe, 0),
    (10, LAST_FAULTED, 10, 0xffff_ffff, 1),
];

// Whether a session goes as such a row says.
fn ends_as(
    alloc: Global,
    keys: RandomState,
    file: &[u8],
    first: u32,
    row: (u32, &str, u32, u32, u32),
) -> Result<bool, Fail> {
    let (fail, replies, calls, age, types) = row;
    let mut fails = Vec::new(alloc);
    if fail > 0 {
        fails.push(first.wrapping_add(fail).wrapping_sub(1))?;
    }
    let mut book = opened(alloc, keys, file, fails)?;
    let got = served(alloc, &mut book, bytes_of(alloc, TWICE)?)?;
    let device = device_of(book)?;
    Ok(
        got == bytes_of(alloc, replies)?
            && device.calls() == first.wrapping_add(calls)
            && holds(alloc, keys, &device, age, types)?,
    )
}

#[test]
fn the_last_number(rt: HostRuntime) -> Result<(), Fail> {
    let alloc = rt.alloc();
    let keys = RandomState::new(&rt)?;
    let file = last_but_one(alloc, keys)?;
    let first = device_of(opened(alloc, keys, &file, Vec::new(alloc))?)?.calls();
    for row in LAST_ROWS {
        let right = ends_as(alloc, keys, &file, first, row)?;
        assert!(rt; right, "where call {} fails", row.0);
    }
    Ok(())
}

// Puts bytes at a place of a file.
fn put(file: &mut [u8], at: usize, bytes: &[u8]) {
    for (byte, there) in bytes.iter().zip(file.iter_mut().skip(at)) {
        *there = *byte;
    }
}

// A new file with 16,370 further streams, all empty. Its directory has 65,532 bytes, which are the block 7
// and those from 9 to 135; the block map is block 8.
fn full_directory(alloc: Global, keys: RandomState) -> Result<Vec<u8>, Fail> {
    let mut file = new_file(alloc, keys)?;
    file.resize(136 * 512, 0)?;
    put(&mut file, 40, &[136, 0, 0, 0, 0xfc, 0xff, 0, 0]);
    put(&mut file, 512, &[0; 17]);
    put(&mut file, 3_584, &[0xfa, 0x3f]);
    put(&mut file, 3_620, &[0; 16]);
    for place in 1..128u8 {
        put(
            &mut file,
            4_096 + usize::from(place) * 4,
            &[place.wrapping_add(8)],
        );
    }
    put(
        &mut file,
        69_612,
        &[3, 0, 0, 0, 4, 0, 0, 0, 5, 0, 0, 0, 6, 0, 0, 0],
    );
    Ok(file)
}

// A modifier takes the last four bytes of the directory, for the block of its hashes, and is committed. An
// item would take four more: it is added, but two commits are refused, and all that was added stays.
const FULL: &str =
    "0d000000020a000110740000000100f2f1 0100000008 0d000000030a000516000000006100f2f1 0100000008 0d000000020a000110740000000200f2f1 0100000008 0100000009 050000000600100000";

const FULL_REPLIES: &str =
    "050000008200100000 050000008802000000 050000008300100000 0a000000ff060600000004000100 050000008201100000 0a000000ff060600000004000100 0d00000089020000000100000000000000 0d000000860a000516000000006100f2f1";

// How many superblocks a device was to write.
fn superblocks(device: &MemDevice) -> u32 {
    let mut count = 0u32;
    for call in 0..device.calls() {
        if device.kind_at(call) == Some(CallKind::Super) {
            count = count.wrapping_add(1);
        }
    }
    count
}

#[test]
fn the_fullest_directory(rt: HostRuntime) -> Result<(), Fail> {
    let alloc = rt.alloc();
    let keys = RandomState::new(&rt)?;
    let file = full_directory(alloc, keys)?;
    let mut book = opened(alloc, keys, &file, Vec::new(alloc))?;
    let got = served(alloc, &mut book, bytes_of(alloc, FULL)?)?;
    assert_eq!(rt; got, bytes_of(alloc, FULL_REPLIES)?);
    let device = device_of(book)?;
    assert_eq!(rt; superblocks(&device), 1);
    let left = holds(alloc, keys, &device, 2, 1)?;
    assert!(rt; left);
    Ok(())
}
