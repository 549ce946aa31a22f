ghost use Rattle.std.specs.Prelude.{IfOk};
ghost use Rattle.msf_blocks.specs.Superblock.{IsSuper};

use super::*;
use msf_blocks::{Super, read_super, write_super};
use std::alloc::Global;
use std::test::Fail;

// The directory of a new file of eight streams and nine blocks: streams 1, 2, 4 and 7 have a block each.
const NEW_FILE: [u8; 52] = [
    8, 0, 0, 0, 0, 0, 0, 0, 0x4b, 0, 0, 0, 0x38, 0, 0, 0, 0, 0, 0, 0, 0x38, 0, 0, 0, 0, 0, 0, 0, 0,
    0, 0, 0, 0x1d, 0, 0, 0, 3, 0, 0, 0, 4, 0, 0, 0, 5, 0, 0, 0, 6, 0, 0, 0,
];

fn header() -> Result<Super, Fail>
    ensures { IfOk result IsSuper }
{
    let numbers = Super {
        block: 4096,
        map: 1,
        blocks: 9,
        dir_bytes: 52,
        unknown: 0,
        map_addr: 8,
    };
    match read_super(&write_super(&numbers), 36_864, 1 << 20) {
        Ok(s) => Ok(s),
        Err(_) => Err("the numbers are a superblock".into()),
    }
}

// Reads the directory, and gives the fault in place of it.
fn fault_of(alloc: Global, bytes: &[u8], s: &Super) -> Option<DirFault>
    requires { IsSuper s.now }
{
    match read_directory(alloc, bytes, s) {
        Ok(_) => None,
        Err(fault) => Some(fault),
    }
}

#[test]
fn new_file(rt: HostRuntime) -> Result<(), Fail> {
    let s = header()?;
    let d = read_directory(rt.alloc(), &NEW_FILE, &s)
        .ok()
        .ok_or("it is a directory")?;
    assert_eq!(rt; d.len(), 8);
    for (stream, size) in [
        (0, Some(0)),
        (1, Some(75)),
        (2, Some(56)),
        (7, Some(29)),
        (8, None),
    ] {
        assert_eq!(rt; d.size(stream), size, "stream {stream}");
    }
    for (stream, block) in [(1, 3), (2, 4), (4, 5), (7, 6)] {
        match d.streams().get(stream) {
            Some(Some(one)) => assert_eq!(rt; one.blocks(), [block].as_slice(), "stream {stream}"),
            _ => assert!(rt; false, "stream {stream}"),
        }
    }
    let text = write_directory(rt.alloc(), &d)?;
    assert_eq!(rt; text.as_slice(), NEW_FILE.as_slice());
    Ok(())
}

#[test]
fn first_faults(rt: HostRuntime) -> Result<(), Fail> {
    use DirDamage::*;
    let s = header()?;
    // The place of a number, its new value, and the first damage then.
    let cases: [(usize, [u8; 4], DirDamage); 11] = [
        (40, [3, 0, 0, 0], BlockTwice { block: 3 }),
        (0, [9, 0, 0, 0], Short { at: 52 }),
        (0, [0xff, 0xff, 0xff, 0xff], Short { at: 52 }),
        (0, [7, 0, 0, 0], Extra { at: 44 }),
        (8, [0xfe, 0xff, 0xff, 0xff], Short { at: 52 }),
        (8, [0xff, 0xff, 0xff, 0xff], Extra { at: 48 }),
        (36, [0, 0, 0, 0], ReservedBlock { block: 0 }),
        (48, [2, 0, 0, 0], ReservedBlock { block: 2 }),
        (36, [9, 0, 0, 0], OutsideFile { block: 9 }),
        (36, [1, 0x10, 0, 0], ReservedBlock { block: 4097 }),
        (48, [0, 0x10, 0, 0], OutsideFile { block: 4096 }),
    ];
    for (place, number, damage) in cases {
        let mut bytes = NEW_FILE;
        assert!(rt; place <= 48);
        bytes[place..place + 4].copy_from_slice(&number);
        assert_eq!(rt;
            fault_of(rt.alloc(), &bytes, &s),
            Some(DirFault::Damage(damage)),
            "at {place}"
        );
    }
    Ok(())
}

#[test]
fn cut_short(rt: HostRuntime) -> Result<(), Fail> {
    let s = header()?;
    for (len, at) in [(0, 0), (3, 0), (4, 4), (35, 32), (36, 36), (51, 48)] {
        assert!(rt; len <= 52);
        let cut = NEW_FILE.as_slice().split_at(len).0;
        assert_eq!(rt;
            fault_of(rt.alloc(), cut, &s),
            Some(DirFault::Damage(DirDamage::Short { at })),
            "{len} bytes"
        );
    }
    Ok(())
}

// Stream 0 has numbers that are no blocks of the file, and they are cut off; stream 1 is absent.
#[test]
fn old_directory(rt: HostRuntime) -> Result<(), Fail> {
    let s = header()?;
    let bytes = [
        3, 0, 0, 0, 1, 0x10, 0, 0, 0xff, 0xff, 0xff, 0xff, 3, 0, 0, 0, 1, 0, 0, 0, 0xee, 0xee,
        0xee, 0xee, 3, 0, 0, 0,
    ];
    let d = read_directory(rt.alloc(), &bytes, &s)
        .ok()
        .ok_or("it is a directory")?;
    for (stream, size) in [(0, Some(4097)), (1, None), (2, Some(3)), (3, None)] {
        assert_eq!(rt; d.size(stream), size, "stream {stream}");
    }
    match d.streams().first() {
        Some(Some(old)) => assert!(rt; old.blocks().is_empty()),
        _ => assert!(rt; false),
    }
    Ok(())
}

// The blocks of the directory are used before those of streams.
#[test]
fn used_before(rt: HostRuntime) -> Result<(), Fail> {
    let s = header()?;
    assert!(rt; s.blocks > 8);
    match read_directory_behind(rt.alloc(), &NEW_FILE, &s, &[8, 4]) {
        Ok(_) => assert!(rt; false),
        Err(fault) => assert_eq!(rt; fault, DirFault::Damage(DirDamage::BlockTwice { block: 4 })),
    }
    Ok(())
}
