//! `check` over files that are cut, that name blocks they do not have, and whose numbers lie.

use crate::running::{bytes_of, device_with, new_file, run_line};
use std::alloc::Global;
use std::hash::RandomState;
use std::test::Fail;

// What is done to a new file, and the line that is printed: it is cut to so many bytes, or at a place it gets
// these. Its streams 1, 2, 4 and 7 are the blocks 3, 4, 5 and 6, the directory is block 7 and the block
// map block 8. The directory has the number of streams, their sizes from 4 on and their blocks from 36
// on.
const LYING: &str = "\
cut 0 => damage magic 0
cut 1 => damage magic 0
cut 55 => damage magic 0
cut 56 => damage blocks 40
cut 4096 => damage blocks 40
cut 36863 => damage blocks 40
52 01000000 => damage map-addr 52
52 09000000 => damage map-addr 52
32768 02000000 => damage reserved-block 2
32768 09000000 => damage outside-file 9
32768 08000000 => damage block-twice 8
28712 03000000 => damage block-twice 3
28672 09000000 => damage directory-short 52
28672 ffffffff => damage directory-short 52
28672 07000000 => damage directory-extra 44
28680 feffffff => damage directory-short 52
28680 ffffffff => damage directory-extra 48
4096 88 => damage block-free 7
28680 1b000000 => damage info-short 12
16412 ff0f0000 => damage types-header 28
16396 01100000 => damage types-count 12
20500 0500 => damage items-hash 20
24576 00 => damage names-header 0
24584 12000000 => damage names-size 8
24584 02000000 => damage names-text 13";

// A file that is changed as a row says.
fn changed(alloc: Global, file: &[u8], change: &str) -> Result<Vec<u8>, Fail> {
    let mut copy = file.to_vec(alloc)?;
    let (place, bytes) = change.split_once(' ').unwrap_or(("", ""));
    if place == "cut" {
        copy.truncate(bytes.parse::<u32>().unwrap_or(0) as usize);
        return Ok(copy);
    }
    let at = place.parse::<u32>().unwrap_or(0) as usize;
    for (byte, there) in bytes_of(alloc, bytes)?.iter().zip(copy.iter_mut().skip(at)) {
        *there = *byte;
    }
    Ok(copy)
}

// What `check` prints of a file, and the code of its status.
fn checked(alloc: Global, keys: RandomState, file: &[u8]) -> Result<(String, u8), Fail> {
    let device = device_with(alloc, file, &[])?;
    let (text, status, _) = run_line(alloc, keys, "check P", "", device)?;
    Ok((String::from_utf8_lossy(alloc, &text)?, status.code()))
}

#[test]
fn files_that_lie(rt: HostRuntime) -> Result<(), Fail> {
    let alloc = rt.alloc();
    let keys = RandomState::new(&rt)?;
    let file = new_file(alloc, keys, "")?;
    for row in LYING.lines() {
        let (change, line) = row.split_once(" => ").unwrap_or(("", ""));
        let (text, code) = checked(alloc, keys, &changed(alloc, &file, change)?)?;
        assert_eq!(rt; (text.as_str().trim_end(), code), (line, 6), "at {change}");
    }
    Ok(())
}
