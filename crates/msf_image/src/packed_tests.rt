use super::{is_packable, new_file, new_image, open_image};
use srv_edge::{MemDevice, Text};
use std::alloc::{AllocError, Global};
use std::test::Fail;

// The packed file of streams that it can hold.
fn made(alloc: Global, block: u32, streams: &[Text]) -> Result<Vec<u8>, Fail> {
    if !is_packable(block, streams) {
        return Err("a packed file can hold these streams".into());
    }
    Ok(new_file(alloc, block, streams)?)
}

// The block map of the packed file of these streams, and what its given blocks hold.
fn content_of(alloc: Global, block: u32, streams: &[Text]) -> Result<(u32, Vec<u8>), Fail> {
    if !is_packable(block, streams) {
        return Err("a packed file can hold these streams".into());
    }
    let new = new_image(alloc, block, streams)?;
    Ok((new.image.head.map_addr, new.content))
}

// A stream of a file, which is opened anew.
fn stream_of(alloc: Global, file: &[u8], stream: u32) -> Result<Vec<u8>, Fail> {
    let mut device = MemDevice::new(alloc, file.to_vec(alloc)?, Vec::new(alloc));
    let image = open_image(alloc, &mut device, 1 << 20)?;
    Ok(image.read_stream(alloc, &mut device, stream)?)
}

// The blocks of a stream of a file that is opened anew, in which no block is free.
fn blocks_of(alloc: Global, file: &[u8], stream: usize) -> Result<Vec<u32>, Fail> {
    let mut device = MemDevice::new(alloc, file.to_vec(alloc)?, Vec::new(alloc));
    let image = open_image(alloc, &mut device, 1 << 20)?;
    if image.free.len() != 0 {
        return Err("no block is free".into());
    }
    match image.directory.streams().get(stream) {
        Some(Some(kept)) => Ok(kept.blocks().to_vec(alloc)?),
        _ => Err("there is such a stream".into()),
    }
}

// Streams of these sizes, each with its number in every byte.
fn streams_of(alloc: Global, sizes: &[usize]) -> Result<Vec<Text>, AllocError> {
    let mut streams = Vec::new(alloc);
    let mut number = 0u8;
    for size in sizes {
        streams.push(Text::new(vec![in alloc; number; *size]?))?;
        number = number.wrapping_add(1);
    }
    Ok(streams)
}

// An empty stream, and one of three bytes.
fn two_streams(alloc: Global) -> Result<Vec<Text>, AllocError> {
    let mut streams = streams_of(alloc, &[0])?;
    streams.push(Text::new([1, 2, 3].to_vec(alloc)?))?;
    Ok(streams)
}

#[test]
fn one_small_stream(rt: HostRuntime) -> Result<(), Fail> {
    let alloc = rt.alloc();
    let file = made(alloc, 512, &two_streams(alloc)?)?;
    assert_eq!(rt; file.len(), 3_072);
    let numbers = [
        0x00, 0x02, 0x00, 0x00, 0x01, 0x00, 0x00, 0x00, 0x06, 0x00, 0x00, 0x00, 0x10, 0x00, 0x00,
        0x00, 0x00, 0x00, 0x00, 0x00, 0x05, 0x00, 0x00, 0x00,
    ];
    assert_eq!(rt; file.get(32..56), Some(numbers.as_slice()));
    assert_eq!(rt; file.get(512), Some(&0xc0));
    assert!(rt; file.iter().skip(513).take(511).all(|byte| *byte == 0xff));
    assert!(rt; stream_of(alloc, &file, 0)?.is_empty());
    assert_eq!(rt;
        stream_of(alloc, &file, 1)?.as_slice(),
        [1, 2, 3].as_slice()
    );
    assert_eq!(rt; blocks_of(alloc, &file, 1)?.as_slice(), [3].as_slice());
    let (map_addr, content) = content_of(alloc, 512, &two_streams(alloc)?)?;
    assert_eq!(rt; map_addr, 5);
    assert_eq!(rt; content.get(..4), Some([1, 2, 3, 0].as_slice()));
    assert_eq!(rt; content.get(512..516), Some([2, 0, 0, 0].as_slice()));
    assert_eq!(rt; content.get(1024..), Some([4, 0, 0, 0].as_slice()));
    Ok(())
}

// Streams 1, 2, 4 and 7 have a block each, the directory has block 7, and the block map is block 8,
// at any size.
#[test]
fn eight_streams(rt: HostRuntime) -> Result<(), Fail> {
    let alloc = rt.alloc();
    let sizes = [0, 75, 56, 0, 56, 0, 0, 29];
    // The size of a block, its two lower bytes, and the length of the file.
    for (block, [low, high], len) in [
        (4096, [0x00, 0x10], 36_864),
        (32_768, [0x00, 0x80], 294_912),
    ] {
        let file = made(alloc, block, &streams_of(alloc, &sizes)?)?;
        assert_eq!(rt; file.len(), len);
        let numbers = [
            low, high, 0x00, 0x00, 0x01, 0x00, 0x00, 0x00, 0x09, 0x00, 0x00, 0x00, 0x34, 0x00,
            0x00, 0x00, 0x00, 0x00, 0x00, 0x00, 0x08, 0x00, 0x00, 0x00,
        ];
        assert_eq!(rt; file.get(32..56), Some(numbers.as_slice()));
        let block = block as usize;
        let mut map = file.iter().skip(block).take(block);
        assert_eq!(rt; map.next(), Some(&0x00));
        assert_eq!(rt; map.next(), Some(&0xfe));
        assert!(rt; map.all(|byte| *byte == 0xff));
        // The directory begins with the number of its streams, and the block map names its one
        // block.
        assert_eq!(rt; file.get(7 * block), Some(&8));
        assert_eq!(rt; file.get(8 * block), Some(&7));
        let mut number = 0u8;
        for size in sizes {
            let want = vec![in alloc; number; size]?;
            assert_eq!(rt;
                stream_of(alloc, &file, u32::from(number))?,
                want,
                "stream {number}"
            );
            number = number.wrapping_add(1);
        }
        for (stream, block) in [(1, 3), (2, 4), (4, 5), (7, 6)] {
            assert_eq!(rt;
                blocks_of(alloc, &file, stream)?.as_slice(),
                [block].as_slice(),
                "stream {stream}"
            );
        }
    }
    Ok(())
}

// Past block 512 stand two more blocks of the maps, and the second block of map 1 has meaning past
// block 4095.
#[test]
fn second_map_pair(rt: HostRuntime) -> Result<(), Fail> {
    let alloc = rt.alloc();
    let file = made(alloc, 512, &streams_of(alloc, &[0, 4200 * 512, 5])?)?;
    // 4,201 blocks of streams, 33 of the directory and the block map, behind 3 and 2 for each of 8
    // runs.
    assert_eq!(rt; file.len(), 4_254 * 512);
    let blocks = blocks_of(alloc, &file, 1)?;
    assert_eq!(rt; blocks.len(), 4_200);
    assert!(rt; !blocks.contains(&513) && !blocks.contains(&514));
    assert_eq!(rt; blocks.get(509..512), Some([512, 515, 516].as_slice()));
    assert_eq!(rt; blocks_of(alloc, &file, 2)?.as_slice(), [4_219].as_slice());
    // Bits 4096 to 4253 of map 1 are 0, those behind them 1; map 2 is zeros.
    assert_eq!(rt;
        file.get(513 * 512 + 18..513 * 512 + 21),
        Some([0x00, 0xc0, 0xff].as_slice())
    );
    assert!(rt; file.iter().skip(514 * 512).take(512).all(|byte| *byte == 0));
    let content = stream_of(alloc, &file, 1)?;
    assert_eq!(rt; content.len(), 4200 * 512);
    assert!(rt; content.iter().all(|byte| *byte == 1));
    assert_eq!(rt;
        stream_of(alloc, &file, 2)?.as_slice(),
        [2, 2, 2, 2, 2].as_slice()
    );
    Ok(())
}

// A file of six blocks at each size, of which none is free.
#[test]
fn each_size(rt: HostRuntime) -> Result<(), Fail> {
    let alloc = rt.alloc();
    for block in [512, 1024, 2048, 4096, 8192, 16_384, 32_768] {
        let file = made(alloc, block, &two_streams(alloc)?)?;
        assert_eq!(rt; file.len(), 6 * block as usize, "{block}");
        let mut device = MemDevice::new(alloc, file, Vec::new(alloc));
        let image = open_image(alloc, &mut device, 6)?;
        assert_eq!(rt; image.head.block, block);
        assert_eq!(rt; image.head.map_addr, 5, "{block}");
        assert_eq!(rt; image.free.len(), 0, "{block}");
        let content = image.read_stream(alloc, &mut device, 1)?;
        assert_eq!(rt; content.as_slice(), [1, 2, 3].as_slice(), "{block}");
    }
    Ok(())
}

// No packed file has a block of this size, a first stream that is not empty, more directory than
// one block can list, or more blocks.
#[test]
fn not_packable(rt: HostRuntime) -> Result<(), Fail> {
    let alloc = rt.alloc();
    assert!(rt; is_packable(512, &streams_of(alloc, &[])?));
    assert!(rt; !is_packable(513, &streams_of(alloc, &[0])?));
    assert!(rt; !is_packable(512, &streams_of(alloc, &[1])?));
    let one = 16_382 * 512;
    assert!(rt; is_packable(512, &streams_of(alloc, &[0, one - 512])?));
    assert!(rt; !is_packable(512, &streams_of(alloc, &[0, one])?));
    Ok(())
}
