use super::*;
use std::alloc::{AllocError, Global};
use std::test::Fail;

// The blocks of a map: bytes at the front, and ones behind them.
fn map_of(alloc: Global, front: &[u8], bytes: usize) -> Result<Vec<u8>, AllocError> {
    let mut map = Vec::from_slice(alloc, front)?;
    map.resize(bytes, 0xff)?;
    Ok(map)
}

// The size of a block, the blocks of the file, what the map begins with, the same as it is written, and
// the least free blocks from 0, 4 and 515 on. The first is the map of a new file of eight streams, the
// second that of a file of two streams, and the third the same with block 3 free. In the others bits of
// reserved blocks and bits past the end are read and not judged.
#[test]
fn maps(rt: HostRuntime) -> Result<(), Fail> {
    let cases = [
        (4096, 9, [0x00, 0xfe], [0x00, 0xfe], None, None, None),
        (512, 6, [0xc0, 0xff], [0xc0, 0xff], None, None, None),
        (512, 6, [0xc8, 0xff], [0xc8, 0xff], Some(3), None, None),
        (512, 6, [0x07, 0x00], [0xc0, 0xff], None, None, None),
        (512, 11, [0xff, 0x00], [0xf8, 0xf8], Some(3), Some(4), None),
    ];
    for (size, blocks, front, written, from_0, from_4, from_515) in cases {
        assert!(rt; msf_blocks::is_block_size(size));
        let text = map_of(rt.alloc(), &front, size as usize)?;
        assert!(rt; text.len() >= 64);
        let map = FreeMap::gather(rt.alloc(), size, blocks, &text)?;
        let want = map_of(rt.alloc(), &written, size as usize)?;
        assert_eq!(rt; map.scatter(rt.alloc(), size)?, want, "{blocks} blocks");
        assert_eq!(rt; map.lowest_free(0), from_0, "{blocks} blocks");
        assert_eq!(rt; map.lowest_free(4), from_4, "{blocks} blocks");
        assert_eq!(rt; map.lowest_free(515), from_515, "{blocks} blocks");
    }
    Ok(())
}

// Past 4,096 blocks of 512 bytes the map has a second block.
#[test]
fn second_map_block(rt: HostRuntime) -> Result<(), Fail> {
    let all = map_of(rt.alloc(), &[], 1024)?;
    assert!(rt; all.len() == 1024);
    let map = FreeMap::gather(rt.alloc(), 512, 4200, &all)?;
    let written = map.scatter(rt.alloc(), 512)?;
    assert_eq!(rt; written.len(), 1024);
    // Blocks 0, 1 and 2, 513 and 514, 4097 and 4098 are reserved.
    for (place, byte) in [
        (0, 0xf8),
        (64, 0xf9),
        (512, 0xf9),
        (513, 0xff),
        (1023, 0xff),
    ] {
        assert_eq!(rt; written.get(place), Some(&byte), "byte {place}");
    }
    for (from, free) in [
        (0, 3),
        (3, 3),
        (512, 512),
        (513, 515),
        (4096, 4096),
        (4097, 4099),
        (4199, 4199),
    ] {
        assert_eq!(rt; map.lowest_free(from), Some(free), "from {from}");
    }
    assert_eq!(rt; map.lowest_free(4200), None);
    Ok(())
}

#[test]
fn other_map(rt: HostRuntime) {
    assert_eq!(rt; other(1), 2);
    assert_eq!(rt; other(2), 1);
}

// All blocks of a file but the 19 reserved ones, and then without block 3.
#[test]
fn used_blocks(rt: HostRuntime) -> Result<(), Fail> {
    let mut map = FreeMap::all_free(rt.alloc(), 512, 4200)?;
    assert_eq!(rt; map.blocks(), 4200);
    assert_eq!(rt; map.len(), 4181);
    assert!(rt; map.is_free(3) && !map.is_free(513) && !map.is_free(4200));
    assert!(rt; map.blocks() > 3);
    map.use_block(3);
    assert!(rt; !map.is_free(3));
    assert_eq!(rt; map.len(), 4180);
    assert_eq!(rt; map.lowest_free(0), Some(4));
    Ok(())
}
