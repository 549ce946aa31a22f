use crate::checking::may_plan;
use crate::{BlockWrite, Plan, PlanFault, Which, plan};
use msf_blocks::Edit;
use msf_image::{is_packable, new_file, open_image};
use srv_edge::{Device, MemDevice, Text};
use std::alloc::{AllocError, Global};
use std::test::Fail;

// A stream, the first of its bytes that are edited, how many are, and the stream's new length.
type Part = (u32, u32, usize, u32);

// Streams of these sizes, each with its number in every byte.
fn streams_of(alloc: Global, sizes: &[usize]) -> Result<Vec<Text>, AllocError> {
    let mut streams = Vec::new(alloc);
    let mut number = 0u8;
    for size in sizes {
        streams.push(Text::new(vec![in alloc; number; *size]?))?;
        number = number.wrapping_add(1);
    }
    Ok(streams)
}

// A packed file of streams of these sizes.
fn file_of(alloc: Global, block_size: u32, sizes: &[usize]) -> Result<MemDevice, Fail> {
    let streams = streams_of(alloc, sizes)?;
    if !is_packable(block_size, &streams) {
        return Err("a packed file can hold these streams".into());
    }
    let file = new_file(alloc, block_size, &streams)?;
    Ok(MemDevice::new(alloc, file, Vec::new(alloc)))
}

// Edits of these parts, with bytes that are all 7.
fn edits_of(alloc: Global, parts: &[Part]) -> Result<Vec<Edit>, AllocError> {
    let mut edits = Vec::new(alloc);
    for (stream, at, count, len) in parts {
        let bytes = vec![in alloc; 7; *count]?;
        edits.push(Edit::new(*stream, *at, bytes, &[], *len))?;
    }
    Ok(edits)
}

// The plan of edits of the file as it is opened, or why there is none.
fn planned(
    alloc: Global,
    device: &mut MemDevice,
    parts: &[Part],
    limit: u32,
) -> Result<Result<Plan, PlanFault>, Fail> {
    let edits = edits_of(alloc, parts)?;
    let image = open_image(alloc, device, limit)?;
    if limit > 1 << 20 || !may_plan(&image, &edits) {
        return Err("these edits may be planned".into());
    }
    Ok(plan(
        alloc,
        &image.head,
        &image.directory,
        &image.free,
        &edits,
        limit,
    ))
}

// Writes a block into a small file.
fn write_block(device: &mut MemDevice, block_size: u32, write: &BlockWrite) -> Result<(), Fail> {
    let at = u64::from(block_size) * u64::from(write.block());
    if at > 1 << 34 || write.bytes().len() > 1 << 16 {
        return Err("the file is small".into());
    }
    Ok(device.write(at, write.bytes())?)
}

// Writes what is planned for the edits, and gives the numbers of the blocks in the order of the
// writes.
fn commit(
    alloc: Global,
    device: &mut MemDevice,
    parts: &[Part],
    limit: u32,
) -> Result<Vec<u32>, Fail> {
    let plan = planned(alloc, device, parts, limit)??;
    let mut numbers = Vec::new(alloc);
    for write in plan.writes() {
        write_block(device, plan.image().head.block, write)?;
        numbers.push(write.block())?;
    }
    device.write_super(&plan.head())?;
    Ok(numbers)
}

// The active map, the number of blocks and that of the free ones, of the file as it is opened.
fn numbers_of(alloc: Global, device: &mut MemDevice) -> Result<(u32, u32, u32), Fail> {
    let image = open_image(alloc, device, 1 << 20)?;
    Ok((image.head.map, image.head.blocks, image.free.len()))
}

// The blocks of a stream of the file as it is opened.
fn blocks_of(alloc: Global, device: &mut MemDevice, stream: usize) -> Result<Vec<u32>, Fail> {
    let image = open_image(alloc, device, 1 << 20)?;
    match image.directory.streams().get(stream) {
        Some(Some(kept)) => Ok(kept.blocks().to_vec(alloc)?),
        _ => Err("there is such a stream".into()),
    }
}

// What a stream holds in the file as it is opened.
fn stream_of(alloc: Global, device: &mut MemDevice, stream: u32) -> Result<Vec<u8>, Fail> {
    let image = open_image(alloc, device, 1 << 20)?;
    Ok(image.read_stream(alloc, device, stream)?)
}

// Bytes that are alike, so many of each.
fn runs_of(alloc: Global, runs: &[(u8, usize)]) -> Result<Vec<u8>, AllocError> {
    let mut bytes = Vec::new(alloc);
    for (byte, count) in runs {
        bytes.extend_from_slice(&vec![in alloc; *byte; *count]?)?;
    }
    Ok(bytes)
}

// A new file of eight streams, of which the first commit writes 1, 2, 4, 5 and 7 whole, and the
// second stream 1 alone.
#[test]
fn two_commits(rt: HostRuntime) -> Result<(), Fail> {
    let alloc = rt.alloc();
    let mut device = file_of(alloc, 4096, &[0, 75, 56, 0, 56, 0, 0, 29])?;
    let first = [
        (1, 0, 75, 75),
        (2, 0, 68, 68),
        (4, 0, 56, 56),
        (5, 0, 8, 8),
        (7, 0, 33, 33),
    ];
    let wrote = commit(alloc, &mut device, &first, 16)?;
    assert_eq!(rt; wrote.as_slice(), [9, 10, 11, 12, 13, 14, 15, 2].as_slice());
    assert_eq!(rt; numbers_of(alloc, &mut device)?, (2, 16, 6));
    let wrote = commit(alloc, &mut device, &[(1, 0, 75, 75)], 16)?;
    assert_eq!(rt; wrote.as_slice(), [3, 4, 5, 1].as_slice());
    for (stream, block) in [(1, 3), (2, 10), (4, 11), (5, 12), (7, 13)] {
        let blocks = blocks_of(alloc, &mut device, stream)?;
        assert_eq!(rt; blocks.as_slice(), [block].as_slice(), "stream {stream}");
    }
    Ok(())
}

// Stream 1 shrinks while two of its blocks are edited, stream 2 is cut by an edit of no bytes, and
// stream 3 is extended from size 0 past block 4095, from where two blocks of a map carry meaning.
#[test]
fn small_blocks(rt: HostRuntime) -> Result<(), Fail> {
    let alloc = rt.alloc();
    let mut device = file_of(alloc, 512, &[0, 2560, 1024, 0])?;
    let long = 4200 * 512;
    let parts = [
        (1, 512, 512, 2000),
        (1, 1536, 464, 2000),
        (2, 0, 0, 700),
        (3, 0, long as usize, long),
    ];
    let wrote = commit(alloc, &mut device, &parts, 1 << 20)?;
    // 4,202 blocks of streams, 33 of the directory, the block map, and two of map 2.
    assert_eq!(rt; wrote.len(), 4_238);
    assert_eq!(rt; wrote.get(499..503), Some([511, 512, 515, 516].as_slice()));
    assert_eq!(rt; wrote.get(4_235..), Some([4_263, 2, 514].as_slice()));
    assert_eq!(rt; numbers_of(alloc, &mut device)?, (2, 4_264, 5));
    let blocks = blocks_of(alloc, &mut device, 1)?;
    assert_eq!(rt; blocks.as_slice(), [3, 12, 5, 13].as_slice());
    let blocks = blocks_of(alloc, &mut device, 2)?;
    assert_eq!(rt; blocks.as_slice(), [8, 9].as_slice());
    Ok(())
}

// What the streams hold after such a commit, where stream 3 is short.
#[test]
fn edited_bytes(rt: HostRuntime) -> Result<(), Fail> {
    let alloc = rt.alloc();
    let mut device = file_of(alloc, 512, &[0, 2560, 1024, 0])?;
    let parts = [
        (1, 512, 512, 2000),
        (1, 1536, 464, 2000),
        (2, 0, 0, 700),
        (3, 0, 513, 513),
    ];
    commit(alloc, &mut device, &parts, 1 << 20)?;
    let pieces: [&[(u8, usize)]; 3] = [
        &[(1, 512), (7, 512), (1, 512), (7, 464)],
        &[(2, 700)],
        &[(7, 513)],
    ];
    for (stream, pieces) in (1..).zip(pieces) {
        assert_eq!(rt;
            stream_of(alloc, &mut device, stream)?,
            runs_of(alloc, pieces)?
        );
    }
    Ok(())
}

// At one block more stream 1 has a directory of 65,536 bytes, and the file 16,706 blocks.
#[test]
fn limits(rt: HostRuntime) -> Result<(), Fail> {
    let alloc = rt.alloc();
    let len = 16_380 * 512;
    let mut device = file_of(alloc, 512, &[0, len as usize])?;
    let blocks = PlanFault::Full {
        which: Which::Blocks,
        needed: 16_706,
    };
    let directory = PlanFault::Full {
        which: Which::Directory,
        needed: 65_540,
    };
    for (more, limit, want) in [
        (512, 16_706, None),
        (512, 16_705, Some(blocks)),
        (1024, 1 << 20, Some(directory)),
    ] {
        let parts = [(1, len, more as usize, len + more)];
        let fault = planned(alloc, &mut device, &parts, limit)?.err();
        assert_eq!(rt; fault, want, "{more} bytes, {limit} blocks");
    }
    Ok(())
}
