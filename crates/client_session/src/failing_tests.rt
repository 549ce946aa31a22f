//! Three commits of a desk in which calls of the device fail: what is answered, which calls are made, and
//! what a crash leaves after each.
ghost use Rattle.std.specs.Prelude.{◌≡◌, IfOk, is_some, true};

use crate::tests::{bytes_of, served};
use hub::Book;
use srv_edge::{CallKind, Limits, MemDevice};
use std::alloc::Global;
use std::hash::RandomState;
use std::test::Fail;
use type_store::PdbFile;

// A modifier is added, and there are three commits.
const FRAMES: &str = "0d000000020a000110740000000100f2f1 0100000008 0100000008 0100000008";

// Which calls behind the opening fail, counted from 1; what is answered, where 88 is a commit and ff 08 a
// fault of the disk with the commit's number; which calls are made, b being the write of a block, s that
// of the superblock and y a sync; and the age of each image that a crash leaves, before the first of these
// calls and after each: without the superblocks that are not settled, and with them.
const FAILING: &str = "\
1 => 050000008200100000 0a000000ff080200000000000000 050000008803000000 050000008804000000 => bbbbbbbbbysybbbbysy => 11111111111133333334 => 11111111111333333344
2 => 050000008200100000 0a000000ff080200000000000000 050000008803000000 050000008804000000 => bbbbbbbbbbysybbbbysy => 111111111111133333334 => 111111111111333333344
3 => 050000008200100000 0a000000ff080200000000000000 050000008803000000 050000008804000000 => bbbbbbbbbbbysybbbbysy => 1111111111111133333334 => 1111111111111333333344
4 => 050000008200100000 0a000000ff080200000000000000 050000008803000000 050000008804000000 => bbbbbbbbbbbbysybbbbysy => 11111111111111133333334 => 11111111111111333333344
5 => 050000008200100000 0a000000ff080200000000000000 050000008803000000 050000008804000000 => bbbbbbbbbbbbbysybbbbysy => 111111111111111133333334 => 111111111111111333333344
6 => 050000008200100000 0a000000ff080200000000000000 050000008803000000 050000008804000000 => bbbbbbbbbbbbbbysybbbbysy => 1111111111111111133333334 => 1111111111111111333333344
7 => 050000008200100000 0a000000ff080200000000000000 050000008803000000 050000008804000000 => bbbbbbbbbbbbbbbysybbbbysy => 11111111111111111133333334 => 11111111111111111333333344
8 => 050000008200100000 0a000000ff080200000000000000 050000008803000000 050000008804000000 => bbbbbbbbbbbbbbbbysybbbbysy => 111111111111111111133333334 => 111111111111111111333333344
9 => 050000008200100000 0a000000ff080200000000000000 050000008803000000 050000008804000000 => bbbbbbbbybbbbbbbbysybbbbysy => 1111111111111111111133333334 => 1111111111111111111333333344
10 => 050000008200100000 0a000000ff080200000000000000 050000008803000000 050000008804000000 => bbbbbbbbyssybbbbysybbbbysy => 111111111111222222233333334 => 111111111122222222333333344
11 => 050000008200100000 0a000000ff080200000000000000 050000008803000000 050000008804000000 => bbbbbbbbysysybbbbysybbbbysy => 1111111111111222222233333334 => 1111111111222222222333333344
10 11 => 050000008200100000 0a000000ff080200000000000000 0a000000ff080300000000000000 050000008804000000 => bbbbbbbbysssybbbbysy => 111111111111122222224 => 111111111122222222244
10 12 => 050000008200100000 0a000000ff080200000000000000 0a000000ff080300000000000000 050000008804000000 => bbbbbbbbyssysybbbbysy => 1111111111111122222224 => 1111111111222222222244
11 12 => 050000008200100000 0a000000ff080200000000000000 0a000000ff080300000000000000 050000008804000000 => bbbbbbbbysyssybbbbysy => 1111111111111122222224 => 1111111111222222222244
11 13 => 050000008200100000 0a000000ff080200000000000000 0a000000ff080300000000000000 050000008804000000 => bbbbbbbbysysysybbbbysy => 11111111111111122222224 => 11111111112222222222244";

/// A new file with blocks of 512 bytes.
pub(crate) fn new_file(alloc: Global, keys: RandomState) -> Result<Vec<u8>, Fail> {
    let device = MemDevice::new(alloc, Vec::new(alloc), Vec::new(alloc));
    match PdbFile::create(alloc, keys, device, 512, [0; 16], 0, Limits::STANDARD) {
        Ok((file, _)) => {
            let device = file.close();
            Ok(device.image(device.calls(), 0, true)?)
        }
        Err(_) => Err(Fail::new("no new file")),
    }
}

/// A file that is opened on a device of which these calls fail, with its tables.
pub(crate) fn opened(
    alloc: Global,
    keys: RandomState,
    file: &[u8],
    fail: Vec<u32>,
) -> Result<Book<MemDevice>, Fail>
    ensures { IfOk result (λ book. is_some book.file ≡ true) }
{
    let device = MemDevice::new(alloc, file.to_vec(alloc)?, fail);
    match PdbFile::open(alloc, keys, device, Limits::STANDARD) {
        Ok((file, tables)) => Ok(Book::new(file, tables)),
        Err(_) => Err(Fail::new("the file opens")),
    }
}

/// The device of a book.
pub(crate) fn device_of(book: Book<MemDevice>) -> Result<MemDevice, Fail> {
    let Book { file, .. } = book;
    match file {
        Some(file) => Ok(file.close()),
        None => Err(Fail::new("a commit is under way")),
    }
}

// Which calls of a device are to fail, by their numbers from 1 behind so many others.
fn places(alloc: Global, first: u32, fails: &str) -> Result<Vec<u32>, Fail> {
    let mut all = Vec::new(alloc);
    for part in fails.split(' ') {
        let place = part.parse::<u32>().unwrap_or(1);
        all.push(first.wrapping_add(place).wrapping_sub(1))?;
    }
    Ok(all)
}

// The kinds of a device's calls from one of them on, a letter each.
fn kinds_from(alloc: Global, device: &MemDevice, first: u32) -> Result<String, Fail> {
    let mut kinds = String::new(alloc);
    for call in first..device.calls() {
        kinds.push_str(match device.kind_at(call) {
            Some(CallKind::Write { .. }) => "b",
            Some(CallKind::Super) => "s",
            Some(CallKind::Sync) => "y",
            _ => "?",
        })?;
    }
    Ok(kinds)
}

// Whether a file opens to an age, with the modifier where that is over 1.
fn opens_to(alloc: Global, keys: RandomState, file: Vec<u8>, age: u32) -> bool {
    let device = MemDevice::new(alloc, file, Vec::new(alloc));
    match PdbFile::open(alloc, keys, device, Limits::STANDARD) {
        Ok((file, tables)) => file.age() == age && tables.types.len() == u32::from(age > 1),
        Err(_) => false,
    }
}

// Whether the images after so many calls open to an age, each range that is not settled holding one of
// three fills.
fn each_fill_opens_to(
    alloc: Global,
    keys: RandomState,
    device: &MemDevice,
    calls: u32,
    last_super: bool,
    age: u32,
) -> Result<bool, Fail> {
    if calls > device.calls() {
        return Ok(false);
    }
    for fill in [0x00, 0xff, 0xa5] {
        let image = device.image(calls, fill, last_super)?;
        if !opens_to(alloc, keys, image, age) {
            return Ok(false);
        }
    }
    Ok(true)
}

// Whether the images from one call on have these ages, a digit for each further call.
fn has_ages(
    alloc: Global,
    keys: RandomState,
    device: &MemDevice,
    first: u32,
    last_super: bool,
    ages: &str,
) -> Result<bool, Fail> {
    let mut calls = first;
    for digit in ages.bytes() {
        let age = u32::from(digit.saturating_sub(b'0')).max(1);
        if !each_fill_opens_to(alloc, keys, device, calls, last_super, age)? {
            return Ok(false);
        }
        calls = calls.wrapping_add(1);
    }
    Ok(calls == device.calls().wrapping_add(1))
}

// Whether a session over a file goes as a row says.
fn goes_as(
    alloc: Global,
    keys: RandomState,
    file: &[u8],
    first: u32,
    row: &str,
) -> Result<bool, Fail> {
    let (fails, rest) = row.split_once(" => ").unwrap_or(("", ""));
    let (replies, rest) = rest.split_once(" => ").unwrap_or(("", ""));
    let (kinds, rest) = rest.split_once(" => ").unwrap_or(("", ""));
    let (without, with) = rest.split_once(" => ").unwrap_or(("", ""));
    let mut book = opened(alloc, keys, file, places(alloc, first, fails)?)?;
    let got = served(alloc, &mut book, bytes_of(alloc, FRAMES)?)?;
    let device = device_of(book)?;
    Ok(
        got == bytes_of(alloc, replies)?
            && kinds_from(alloc, &device, first)?.as_str() == kinds
            && has_ages(alloc, keys, &device, first, false, without)?
            && has_ages(alloc, keys, &device, first, true, with)?,
    )
}

// The first row that a session does not go by.
fn first_wrong<'a>(
    alloc: Global,
    keys: RandomState,
    rows: &'a str,
) -> Result<Option<&'a str>, Fail> {
    let file = new_file(alloc, keys)?;
    let first = device_of(opened(alloc, keys, &file, Vec::new(alloc))?)?.calls();
    for row in rows.lines() {
        if !goes_as(alloc, keys, &file, first, row)? {
            return Ok(Some(row));
        }
    }
    Ok(None)
}

#[test]
fn each_call_of_a_commit_failing(rt: HostRuntime) -> Result<(), Fail> {
    let keys = RandomState::new(&rt)?;
    assert_eq!(rt; first_wrong(rt.alloc(), keys, FAILING)?, None);
    Ok(())
}
