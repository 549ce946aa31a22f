//! `check` and `dump` over files in memory: the lines of a file that holds tables, each damage once,
//! and each call failing.

use crate::commands::run;
use command_words::Word;
use msf_image::{DamageKind, is_packable, new_file};
use program_status::Status;
use srv_edge::{FileDevice, MemDevice, MemSink, MemSource, Text};
use std::alloc::Global;
use std::fs::File;
use std::hash::RandomState;
use std::test::Fail;

fn words_of(alloc: Global, command: &str, path: &str) -> Result<Vec<Word>, Fail> {
    let mut words = Vec::new(alloc);
    words.push(Word::new(String::from_str(alloc, command)?))?;
    words.push(Word::new(String::from_str(alloc, path)?))?;
    Ok(words)
}

// A file of six blocks of 512 bytes with the streams 0, of no bytes, and 1, of the bytes 01 02 03.
// Block 1 is the active map, block 3 holds the stream, block 4 the directory and block 5 the block
// map.
fn small_file(alloc: Global) -> Result<Vec<u8>, Fail> {
    let mut file = vec![in alloc; 0; 3072]?;
    file[..32].copy_from_slice(b"Microsoft C/C++ MSF 7.00\r\n\x1aDS\0\0\0");
    file[32..56].copy_from_slice(&[
        0, 2, 0, 0, 1, 0, 0, 0, 6, 0, 0, 0, 16, 0, 0, 0, 0, 0, 0, 0, 5, 0, 0, 0,
    ]);
    file[512..1024].copy_from_slice(&[0xff; 512]);
    file[512] = 0xc0;
    file[1536..1539].copy_from_slice(&[1, 2, 3]);
    file[2048..2064].copy_from_slice(&[2, 0, 0, 0, 0, 0, 0, 0, 3, 0, 0, 0, 3, 0, 0, 0]);
    file[2560] = 4;
    Ok(file)
}

// What a command prints of a file, and its status.
fn shown(
    alloc: Global,
    keys: RandomState,
    command: &str,
    file: Vec<u8>,
    device_fails: &[u32],
    sink_fails: &[u32],
) -> Result<(String, Status), Fail> {
    let mut source = MemSource::new(Vec::new(alloc), 1, Vec::new(alloc));
    let mut sink = MemSink::new(alloc, Vec::from_slice(alloc, sink_fails)?);
    let device = MemDevice::new(alloc, file, Vec::from_slice(alloc, device_fails)?);
    let words = words_of(alloc, command, "P")?;
    let (status, _) = run(alloc, keys, &words, &mut source, &mut sink, device);
    Ok((String::from_utf8_lossy(alloc, sink.taken())?, status))
}

// The small file is a container, but its stream 1 ends within its first field.
const NO_TABLES: &str = "damage info-short 0\n";

// One byte of the small file changed.
#[test]
fn each_damage(rt: HostRuntime) -> Result<(), Fail> {
    let keys = RandomState::new(&rt)?;
    let rows = [
        (0, 0x6d, DamageKind::Magic, 0, "damage magic 0\n"),
        (32, 1, DamageKind::BlockSize, 32, "damage block-size 32\n"),
        (36, 3, DamageKind::FreeMap, 36, "damage free-map 36\n"),
        (40, 7, DamageKind::Blocks, 40, "damage blocks 40\n"),
        (40, 3, DamageKind::Blocks, 40, "damage blocks 40\n"),
        (44, 3, DamageKind::Directory, 44, "damage directory 44\n"),
        (52, 2, DamageKind::MapAddr, 52, "damage map-addr 52\n"),
        (52, 6, DamageKind::MapAddr, 52, "damage map-addr 52\n"),
        (
            2560,
            2,
            DamageKind::ReservedBlock,
            2,
            "damage reserved-block 2\n",
        ),
        (
            2560,
            6,
            DamageKind::OutsideFile,
            6,
            "damage outside-file 6\n",
        ),
        (2560, 5, DamageKind::BlockTwice, 5, "damage block-twice 5\n"),
        (
            2060,
            1,
            DamageKind::ReservedBlock,
            1,
            "damage reserved-block 1\n",
        ),
        (
            2060,
            9,
            DamageKind::OutsideFile,
            9,
            "damage outside-file 9\n",
        ),
        (2060, 4, DamageKind::BlockTwice, 4, "damage block-twice 4\n"),
        (
            2048,
            3,
            DamageKind::DirectoryShort,
            16,
            "damage directory-short 16\n",
        ),
        (
            2048,
            1,
            DamageKind::DirectoryExtra,
            8,
            "damage directory-extra 8\n",
        ),
        (512, 0xc8, DamageKind::BlockFree, 3, "damage block-free 3\n"),
        (512, 0xf0, DamageKind::BlockFree, 5, "damage block-free 5\n"),
    ];
    for (at, byte, kind, place, line) in rows {
        let mut file = small_file(rt.alloc())?;
        if let Some(changed) = file.get_mut(at) {
            *changed = byte;
        }
        let (text, status) = shown(rt.alloc(), keys, "check", file, &[], &[])?;
        assert_eq!(rt; text.as_str(), line);
        assert_eq!(rt; status, Status::Damage { kind, place });
    }
    Ok(())
}

// The small file is the packed file of its streams.
#[test]
fn packed_file(rt: HostRuntime) -> Result<(), Fail> {
    let keys = RandomState::new(&rt)?;
    let mut streams = Vec::new(rt.alloc());
    streams.push(Text::new(Vec::new(rt.alloc())))?;
    streams.push(Text::new(Vec::from_slice(rt.alloc(), &[1, 2, 3])?))?;
    assert!(rt; is_packable(512, &streams));
    let file = new_file(rt.alloc(), 512, &streams)?;
    assert_eq!(rt; file, small_file(rt.alloc())?);
    Ok(())
}

// The file cut to so many bytes, and one with bytes behind its blocks.
#[test]
fn lengths(rt: HostRuntime) -> Result<(), Fail> {
    let keys = RandomState::new(&rt)?;
    let rows = [
        (0, "damage magic 0\n"),
        (55, "damage magic 0\n"),
        (56, "damage blocks 40\n"),
        (3071, "damage blocks 40\n"),
        (3072, NO_TABLES),
    ];
    for (len, line) in rows {
        let mut file = small_file(rt.alloc())?;
        file.truncate(len);
        let (text, _) = shown(rt.alloc(), keys, "check", file, &[], &[])?;
        assert_eq!(rt; text.as_str(), line);
    }
    let mut longer = small_file(rt.alloc())?;
    longer.extend_from_slice(&[7; 700])?;
    let (text, _) = shown(rt.alloc(), keys, "check", longer, &[], &[])?;
    assert_eq!(rt; text.as_str(), NO_TABLES);
    Ok(())
}

// The PDB stream of age 2, in which `/names` is stream 7.
const INFO: [u8; 75] = [
    0x94, 0x2e, 0x31, 1, 0, 0, 0, 0, 2, 0, 0, 0, 0, 0, 0, 0, 0, 0, 0, 0, 0, 0, 0, 0, 0, 0, 0, 0, 7,
    0, 0, 0, 0x2f, 0x6e, 0x61, 0x6d, 0x65, 0x73, 0, 1, 0, 0, 0, 1, 0, 0, 0, 1, 0, 0, 0, 1, 0, 0, 0,
    0, 0, 0, 0, 0, 0, 0, 0, 7, 0, 0, 0, 0, 0, 0, 0, 0xdc, 0x51, 0x33, 1,
];

// A stream of one type, a const modifier of int.
const TYPES: [u8; 68] = [
    0x0b, 0xca, 0x31, 1, 0x38, 0, 0, 0, 0, 0x10, 0, 0, 1, 0x10, 0, 0, 0x0c, 0, 0, 0, 5, 0, 0xff,
    0xff, 4, 0, 0, 0, 0xff, 0xff, 3, 0, 0, 0, 0, 0, 4, 0, 0, 0, 4, 0, 0, 0, 8, 0, 0, 0, 0x0c, 0, 0,
    0, 0, 0, 0, 0, 0x0a, 0, 1, 0x10, 0x74, 0, 0, 0, 1, 0, 0xf2, 0xf1,
];

// A stream of no items.
const ITEMS: [u8; 56] = [
    0x0b, 0xca, 0x31, 1, 0x38, 0, 0, 0, 0, 0x10, 0, 0, 0, 0x10, 0, 0, 0, 0, 0, 0, 6, 0, 0xff, 0xff,
    4, 0, 0, 0, 0xff, 0xff, 3, 0, 0, 0, 0, 0, 0, 0, 0, 0, 0, 0, 0, 0, 0, 0, 0, 0, 0, 0, 0, 0, 0, 0,
    0, 0,
];

// A stream of no names.
const NAMES: [u8; 29] = [
    0xfe, 0xef, 0xfe, 0xef, 1, 0, 0, 0, 1, 0, 0, 0, 0, 2, 0, 0, 0, 0, 0, 0, 0, 0, 0, 0, 0, 0, 0, 0,
    0,
];

// The eight streams. The streams of hashes, 5 and 6, are not read.
fn streams(alloc: Global) -> Result<Vec<Vec<u8>>, Fail> {
    let mut streams = Vec::new(alloc);
    let bytes: [&[u8]; 8] = [&[], &INFO, &TYPES, &[], &ITEMS, &[9; 12], &[], &NAMES];
    for stream in bytes {
        streams.push(Vec::from_slice(alloc, stream)?)?;
    }
    Ok(streams)
}

// The packed file of streams, with blocks of 4096 bytes.
fn packed(alloc: Global, streams: Vec<Vec<u8>>) -> Result<Vec<u8>, Fail> {
    let mut texts = Vec::new(alloc);
    for stream in streams {
        texts.push(Text::new(stream))?;
    }
    if !is_packable(4096, &texts) {
        return Err(Fail::new("not packable"));
    }
    Ok(new_file(alloc, 4096, &texts)?)
}

const LINES: &str = "msf block=4096 blocks=10 streams=8 free=0\n\
    pdb age=2 types=1 items=0 names=0\n";

const ALL: &str = "msf block=4096 blocks=10 streams=8 free=0\n\
    pdb age=2 types=1 items=0 names=0\n\
    stream 0 size=0 blocks=0\n\
    stream 1 size=75 blocks=1\n\
    stream 2 size=68 blocks=1\n\
    stream 3 size=0 blocks=0\n\
    stream 4 size=56 blocks=1\n\
    stream 5 size=12 blocks=1\n\
    stream 6 size=0 blocks=0\n\
    stream 7 size=29 blocks=1\n\
    type 00001000 1001 0a000110740000000100f2f1\n";

// The lines of the file with one type, and each call failing in turn: a sync, the size, the
// superblock, the block map, the directory, the free block map, and the four streams. Then the sink
// fails, over a whole file and over a damaged one.
#[test]
fn lines_and_failing_calls(rt: HostRuntime) -> Result<(), Fail> {
    let alloc = rt.alloc();
    let keys = RandomState::new(&rt)?;
    for (command, want) in [("check", LINES), ("dump", ALL)] {
        let file = packed(alloc, streams(alloc)?)?;
        let (text, status) = shown(alloc, keys, command, file, &[10], &[])?;
        assert_eq!(rt; (text.as_str(), status), (want, Status::Ok));
    }
    for call in 0..10u32 {
        let file = packed(alloc, streams(alloc)?)?;
        let (text, status) = shown(alloc, keys, "dump", file, &[call], &[])?;
        assert_eq!(rt;
            (text.as_str(), status),
            ("", Status::DiskFault),
            "at {call}"
        );
    }
    for file in [packed(alloc, streams(alloc)?)?, small_file(alloc)?] {
        let (text, status) = shown(alloc, keys, "check", file, &[], &[0])?;
        assert_eq!(rt; (text.as_str(), status), ("", Status::WriteFault));
    }
    Ok(())
}

const LINKED: &str = "msf block=4096 blocks=11 streams=8 free=0\n\
    pdb age=2 types=1 items=0 names=0\n\
    stream 0 size=56 blocks=1\n\
    stream 1 size=75 blocks=1\n\
    stream 2 size=84 blocks=1\n\
    stream 3 size=64 blocks=1\n\
    stream 4 size=56 blocks=1\n\
    stream 5 size=12 blocks=1\n\
    stream 6 size=0 blocks=0\n\
    stream 7 size=29 blocks=1\n\
    type 00001000 1515 1a001515000000000000000000000000000000000100000061000000\n";

// A file with a DBI stream, a type server as its one type, adjusters of hashes, and an old directory
// as stream 0, whose block another stream has.
#[test]
fn linked_file(rt: HostRuntime) -> Result<(), Fail> {
    let alloc = rt.alloc();
    let keys = RandomState::new(&rt)?;
    let mut changed = streams(alloc)?;
    if let Some(types) = changed.get_mut(2) {
        types.truncate(56);
        types.extend_from_slice(&[0x1a, 0, 0x15, 0x15])?;
        types.extend_from_slice(&[0; 16])?;
        types.extend_from_slice(&[1, 0, 0, 0, 0x61, 0, 0, 0])?;
        for (at, byte) in [(16, 0x1c), (48, 12), (52, 8)] {
            if let Some(changed) = types.get_mut(at) {
                *changed = byte;
            }
        }
    }
    if let Some(dbi) = changed.get_mut(3) {
        dbi.resize(64, 7)?;
    }
    let mut file = packed(alloc, changed)?;
    let directory = 9 * 4096;
    for (at, byte) in [
        (44, 64),
        (directory + 4, 56),
        (directory + 36, 5),
        (directory + 40, 3),
        (directory + 44, 4),
        (directory + 48, 5),
        (directory + 52, 6),
        (directory + 56, 7),
        (directory + 60, 8),
    ] {
        if let Some(changed) = file.get_mut(at) {
            *changed = byte;
        }
    }
    let (text, status) = shown(alloc, keys, "dump", file, &[], &[])?;
    assert_eq!(rt; (text.as_str(), status), (LINKED, Status::Ok));
    Ok(())
}

// A stream, how many bytes it has, bytes of it that are changed, and the line that is printed.
#[test]
fn each_damage_of_tables(rt: HostRuntime) -> Result<(), Fail> {
    let alloc = rt.alloc();
    let keys = RandomState::new(&rt)?;
    let rows: [(usize, usize, [(usize, u8); 1], &str); 34] = [
        (1, 0, [(0, 0)], "damage info-short 0\n"),
        (1, 11, [(0, 0)], "damage info-short 8\n"),
        (1, 27, [(0, 0)], "damage info-short 12\n"),
        (1, 38, [(0, 0)], "damage info-short 32\n"),
        (1, 75, [(32, 0x78)], "damage no-names 0\n"),
        (2, 55, [(0, 0)], "damage types-header 55\n"),
        (2, 68, [(0, 0x0c)], "damage types-version 0\n"),
        (2, 68, [(4, 57)], "damage types-header 4\n"),
        (2, 68, [(24, 5)], "damage types-header 24\n"),
        (2, 68, [(30, 4)], "damage types-header 28\n"),
        (2, 68, [(8, 1)], "damage types-begin 8\n"),
        (2, 68, [(13, 0x0f)], "damage types-count 12\n"),
        (2, 68, [(16, 0x0d)], "damage types-bytes 16\n"),
        (2, 68, [(56, 0x0b)], "damage types-record 56\n"),
        (2, 68, [(12, 2)], "damage types-count 12\n"),
        (2, 68, [(20, 4)], "damage types-hash 20\n"),
        (2, 68, [(20, 8)], "damage types-hash 20\n"),
        (4, 55, [(0, 0)], "damage items-header 55\n"),
        (4, 56, [(0, 0x0c)], "damage items-version 0\n"),
        (4, 56, [(30, 4)], "damage items-header 28\n"),
        (4, 56, [(9, 0)], "damage items-begin 8\n"),
        (4, 56, [(16, 1)], "damage items-bytes 16\n"),
        (4, 57, [(16, 1)], "damage items-record 56\n"),
        (4, 56, [(12, 1)], "damage items-count 12\n"),
        (4, 56, [(20, 5)], "damage items-hash 20\n"),
        (1, 75, [(63, 4)], "damage names-stream 4\n"),
        (1, 75, [(63, 5)], "damage names-stream 5\n"),
        (1, 75, [(63, 8)], "damage names-stream 8\n"),
        (7, 11, [(0, 0)], "damage names-header 0\n"),
        (7, 29, [(0, 0xff)], "damage names-header 0\n"),
        (7, 29, [(4, 3)], "damage names-header 4\n"),
        (7, 29, [(8, 18)], "damage names-size 8\n"),
        (7, 29, [(12, 0x61)], "damage names-text 12\n"),
        (7, 29, [(8, 2)], "damage names-text 13\n"),
    ];
    for (stream, len, [(at, byte)], line) in rows {
        let mut changed = streams(alloc)?;
        if let Some(bytes) = changed.get_mut(stream) {
            bytes.resize(len, 0)?;
            if let Some(changed) = bytes.get_mut(at) {
                *changed = byte;
            }
        }
        let (text, status) = shown(alloc, keys, "dump", packed(alloc, changed)?, &[], &[])?;
        assert_eq!(rt; text.as_str(), line);
        assert_eq!(rt; status.code(), 6);
    }
    Ok(())
}

// A file that is not there is a fault of the disk. Words that are no form do not ask for it.
#[test]
fn no_file_and_no_form(rt: HostRuntime) -> Result<(), Fail> {
    let keys = RandomState::new(&rt)?;
    let rows = [
        ("check", "P", Status::DiskFault),
        ("check", "-", Status::DiskFault),
        ("check", "", Status::Usage),
        ("check", "-x", Status::Usage),
        ("check", "--", Status::Usage),
        ("session", "P", Status::DiskFault),
        ("dump", "P", Status::DiskFault),
        ("init", "P", Status::DiskFault),
    ];
    for (command, path, want) in rows {
        let mut source = MemSource::new(Vec::new(rt.alloc()), 1, Vec::new(rt.alloc()));
        let mut sink = MemSink::new(rt.alloc(), Vec::new(rt.alloc()));
        let words = words_of(rt.alloc(), command, path)?;
        let device: FileDevice<File> = FileDevice::absent();
        let (status, _) = run(rt.alloc(), keys, &words, &mut source, &mut sink, device);
        assert_eq!(rt; status, want, "at {command} {path}");
        assert!(rt; sink.taken().is_empty());
    }
    Ok(())
}
