use super::{OpenFault, is_packable, new_file, open_image};
use srv_edge::{Device, MemDevice, Text};
use std::alloc::{AllocError, Global};
use std::test::Fail;

// A packed file with blocks of 512 bytes of an empty stream and this one.
fn file_with(alloc: Global, content: &[u8]) -> Result<Vec<u8>, Fail> {
    let mut streams = Vec::new(alloc);
    streams.push(Text::new(Vec::new(alloc)))?;
    streams.push(Text::new(content.to_vec(alloc)?))?;
    if !is_packable(512, &streams) {
        return Err("a packed file can hold these streams".into());
    }
    Ok(new_file(alloc, 512, &streams)?)
}

// The same file with map 2 as the active one, every bit of map 1 as 1, and a block more.
fn with_second_map(alloc: Global, packed: &[u8]) -> Result<Vec<u8>, AllocError> {
    let mut file = Vec::new(alloc);
    for (at, byte) in packed.iter().copied().enumerate() {
        file.push(match at {
            36 => 2,
            40 => 7,
            512..=1_023 => 0xff,
            1_024..=1_535 => packed.get(at - 512).copied().unwrap_or(0),
            _ => byte,
        })?;
    }
    file.extend_from_slice(&[0; 512])?;
    Ok(file)
}

// Of seven blocks the last alone is free, by map 2.
#[test]
fn second_map_is_active(rt: HostRuntime) -> Result<(), Fail> {
    let alloc = rt.alloc();
    let file = with_second_map(alloc, &file_with(alloc, &[1, 2, 3])?)?;
    assert_eq!(rt; file.len(), 7 * 512);
    let mut device = MemDevice::new(alloc, file, Vec::new(alloc));
    let image = open_image(alloc, &mut device, 7)?;
    assert_eq!(rt; image.head.map, 2);
    assert_eq!(rt; image.free.len(), 1);
    assert!(rt; image.free.is_free(6));
    let content = image.read_stream(alloc, &mut device, 1)?;
    assert_eq!(rt; content.as_slice(), [1, 2, 3].as_slice());
    Ok(())
}

// Opening makes five calls, and a stream of two blocks two more. At each of those the device fails
// once.
#[test]
fn stream_over_a_failing_device(rt: HostRuntime) -> Result<(), Fail> {
    let alloc = rt.alloc();
    let content = vec![in alloc; 9; 600]?;
    let file = file_with(alloc, &content)?;
    for (failing, calls) in [(5, 6), (6, 7)] {
        let fail = [failing].to_vec(alloc)?;
        let mut device = MemDevice::new(alloc, file.to_vec(alloc)?, fail);
        let image = open_image(alloc, &mut device, 7)?;
        let read = image.read_stream(alloc, &mut device, 1);
        assert_eq!(rt; read.err(), Some(OpenFault::DiskFault), "call {failing}");
        assert_eq!(rt; device.calls(), calls);
        assert_eq!(rt; device.faults(), 1);
        assert_eq!(rt; image.read_stream(alloc, &mut device, 1)?, content);
    }
    Ok(())
}
