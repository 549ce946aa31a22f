//! A file of small blocks that a session fills, and commits to once more for one record: the blocks that
//! this writes, and how long its streams are then.
ghost use Rattle.std.specs.Prelude.{◌≡◌, IfOk, is_some, true};

use crate::failing_tests::device_of;
use crate::tests::{bytes_of, served};
use hub::Book;
use srv_edge::{CallKind, Limits, MemDevice};
use std::alloc::{AllocError, Global};
use std::hash::RandomState;
use std::test::Fail;
use type_store::PdbFile;

// An AddType of each of so many modifiers, of 12 bytes.
fn adds(alloc: Global, count: u16) -> Result<Vec<u8>, AllocError> {
    let mut frames = Vec::new(alloc);
    for k in 0..count {
        let [low, high] = k.to_le_bytes();
        let record = [10, 0, 1, 16, 116, 0, 0, 0, low, high, 242, 241];
        frames.extend_from_slice(&[13, 0, 0, 0, 2])?;
        frames.extend_from_slice(&record)?;
    }
    Ok(frames)
}

// 10,000 modifiers and a commit, and then one modifier more and a commit.
fn frames(alloc: Global) -> Result<Vec<u8>, Fail> {
    let mut all = adds(alloc, 10_000)?;
    let more = "0100000008 0d000000020a00011074000000 1027f2f1 0100000008";
    all.extend_from_slice(&bytes_of(alloc, more)?)?;
    Ok(all)
}

// A book of a new file with blocks of 512 bytes.
fn small_blocks(alloc: Global, keys: RandomState) -> Result<Book<MemDevice>, Fail>
    ensures { IfOk result (λ book. is_some book.file ≡ true) }
{
    let device = MemDevice::new(alloc, Vec::new(alloc), Vec::new(alloc));
    match PdbFile::create(alloc, keys, device, 512, [0; 16], 0, Limits::STANDARD) {
        Ok((file, tables)) => Ok(Book::new(file, tables)),
        Err(_) => Err(Fail::new("no new file")),
    }
}

// The device of a session with these frames over it.
fn filled(alloc: Global, keys: RandomState, frames: Vec<u8>) -> Result<MemDevice, Fail> {
    let mut book = small_blocks(alloc, keys)?;
    served(alloc, &mut book, frames)?;
    device_of(book)
}

// A device with what another holds once all its calls are settled.
fn settled(alloc: Global, device: &MemDevice) -> Result<MemDevice, Fail> {
    let file = device.image(device.calls(), 0, true)?;
    Ok(MemDevice::new(alloc, file, Vec::new(alloc)))
}

// The blocks that the last calls of a device write, as many as there are numbers, and then a sync, the
// superblock and a sync.
fn ends_with_writes(device: &MemDevice, blocks: &[u64]) -> bool {
    let Ok(calls) = u32::try_from(blocks.len()) else {
        return false;
    };
    let mut call = device.calls().wrapping_sub(calls).wrapping_sub(3);
    for block in blocks {
        let at = block.wrapping_mul(512);
        if device.kind_at(call) != Some(CallKind::Write { at }) {
            return false;
        }
        call = call.wrapping_add(1);
    }
    device.kind_at(call) == Some(CallKind::Sync)
        && device.kind_at(call.wrapping_add(1)) == Some(CallKind::Super)
        && device.kind_at(call.wrapping_add(2)) == Some(CallKind::Sync)
}

// The places of the blocks of a stream whose numbers do not rise one by one from this one.
fn moved(
    alloc: Global,
    file: &PdbFile<MemDevice>,
    stream: usize,
    first: u32,
) -> Result<Vec<u32>, Fail> {
    let mut places = Vec::new(alloc);
    let Some(Some(kept)) = file.image().directory.streams().get(stream) else {
        return Err(Fail::new("there is such a stream"));
    };
    let mut place = 0u32;
    for block in kept.blocks() {
        if *block != first.wrapping_add(place) {
            places.push(place)?;
        }
        place = place.wrapping_add(1);
    }
    Ok(places)
}

// Whether the streams of types and of their hashes have these lengths, and these of their blocks lie
// apart.
fn has_streams(alloc: Global, file: &PdbFile<MemDevice>) -> Result<bool, Fail> {
    let directory = &file.image().directory;
    Ok(
        directory.size(2) == Some(120_068)
            && directory.size(5) == Some(40_124)
            && moved(alloc, file, 2, 10)?.as_slice() == [0, 234].as_slice()
            && moved(alloc, file, 5, 246)?.as_slice() == [78].as_slice(),
    )
}

// Whether a device holds the third commit, with these streams.
fn holds_both(alloc: Global, keys: RandomState, device: MemDevice) -> Result<bool, Fail> {
    let Ok((file, tables)) = PdbFile::open(alloc, keys, device, Limits::STANDARD) else {
        return Ok(false);
    };
    if file.age() != 3 || tables.types.len() != 10_001 {
        return Ok(false);
    }
    has_streams(alloc, &file)
}

// The commit of the last modifier writes the PDB stream, the blocks 0 and 234 of the types, block 78 of their
// hashes, three blocks of the directory, the block map and the free block map.
#[test]
fn one_record_more(rt: HostRuntime) -> Result<(), Fail> {
    let alloc = rt.alloc();
    let keys = RandomState::new(&rt)?;
    let device = filled(alloc, keys, frames(alloc)?)?;
    let wrote = ends_with_writes(&device, &[3, 4, 5, 6, 7, 8, 330, 331, 1]);
    assert!(rt; wrote);
    let device = settled(alloc, &device)?;
    let holds = holds_both(alloc, keys, device)?;
    assert!(rt; holds);
    Ok(())
}
