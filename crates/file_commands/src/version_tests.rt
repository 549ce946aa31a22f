//! Sessions in version 2: tags and lists of records, by their bytes.

use crate::running::new_file;
use crate::session_tests::{PIECES, packed, talk, talk_of};
use program_status::Status;
use srv_edge::{word, word_at};
use std::alloc::Global;
use std::hash::RandomState;
use std::test::Fail;

// The frame with which bytes begin, behind its length, and what follows it.
fn first_frame(bytes: &[u8]) -> Option<(&[u8], &[u8])> {
    if bytes.len() < 5 {
        return None;
    }
    let end = (word_at(bytes) as usize).checked_add(4)?;
    Some((bytes.get(4..end)?, bytes.get(end..)?))
}

// Frames of version 1 behind a Hello of version 2, with the tags 1, 2 and so on. Behind one of
// version 1 they are as they were.
pub(crate) fn in_version_2(alloc: Global, frames: &str) -> Result<String, Fail> {
    let frames = packed(alloc, frames)?;
    let frames = hex::decode(alloc, frames.as_str())?;
    let mut out = hex::decode(alloc, "03000000010200")?;
    let mut rest: &[u8] = &frames;
    for tag in 1..20 {
        let Some((frame, behind)) = first_frame(rest) else {
            break;
        };
        let length = u32::try_from(frame.len()).unwrap_or(0);
        out.extend_from_slice(&word(length.wrapping_add(4)))?;
        out.extend_from_slice(frame.get(..1).unwrap_or(&[]))?;
        out.extend_from_slice(&word(tag))?;
        out.extend_from_slice(frame.get(1..).unwrap_or(&[]))?;
        rest = behind;
        if frame == [1, 1, 0].as_slice() || frame == [0x81, 1, 0].as_slice() {
            break;
        }
    }
    out.extend_from_slice(rest)?;
    Ok(hex::encode(alloc, &out)?)
}

#[test]
fn versions_tags_and_lists(rt: HostRuntime) -> Result<(), Fail> {
    let keys = RandomState::new(&rt)?;
    let file = new_file(rt.alloc(), keys, "")?;
    let rows = [
        // to version 2, the counts, and a list of one record twice
        (
            "03000000010200 050000000907000000
             1d0000000b080000000a000110740000000100f2f10a000110740000000100f2f1",
            "03000000810200 110000008907000000000000000000000000000000
             170000008b08000000000010000000000000000010000000000000",
            Status::Ok,
        ),
        // a length of 4, and an empty list
        (
            "03000000010200 04000000",
            "03000000810200 0e000000ff00000000010400000000000000",
            Status::BadLength,
        ),
        (
            "03000000010200 050000000b09000000",
            "03000000810200 0e000000ff09000000030000000000000000",
            Status::Ok,
        ),
        // a list whose last record is cut
        (
            "03000000010200 140000000b010000000a000110740000000100f2f10a0001",
            "03000000810200 0e000000ff01000000030f00000000000000",
            Status::Ok,
        ),
        // a record that is refused does not stop the next
        (
            "03000000010200 210000000b030000000a000110740000000100f2f1020000000a000110750000000100f2f1
             050000000904000000",
            "03000000810200 200000008b03000000000010000000000000040200000002000000000110000000000000
             110000008904000000020000000000000000000000",
            Status::Ok,
        ),
        // a list of items
        (
            "03000000010200 110000000c040000000a000516000000006100f2f1",
            "03000000810200 0e0000008c04000000000010000000000000",
            Status::Ok,
        ),
        // lists are no requests of version 1
        (
            "010000000b 010000000c",
            "0a000000ff020b00000000000000 0a000000ff020c00000000000000",
            Status::Ok,
        ),
        // a Hello of version 0 and of the greatest, and back to version 1
        (
            "0300000001ffff 0700000001050000000000 0700000001060000000100 0100000009",
            "03000000810200 0e000000ff05000000030200000000000000 0700000081060000000100
             0d00000089000000000000000000000000",
            Status::Ok,
        ),
        // the end of the input within a tag, and a Bye
        (
            "03000000010200 0500000009",
            "03000000810200",
            Status::CutShort,
        ),
        (
            "03000000010200 050000000a01000000 050000000902000000",
            "03000000810200 050000008a01000000",
            Status::Ok,
        ),
    ];
    for (input, replies, status) in rows {
        let want = packed(rt.alloc(), replies)?;
        for more in PIECES {
            let (text, got) = talk(rt.alloc(), keys, &file, input, more, &[], &[])?;
            assert_eq!(rt; (text.as_str(), got), (want.as_str(), status), "at {input}");
        }
    }
    Ok(())
}

// A list of 4,096 records, each of 12 bytes and equal to the first, and one of 4,097.
#[test]
fn longest_list(rt: HostRuntime) -> Result<(), Fail> {
    let keys = RandomState::new(&rt)?;
    let record = [0x0a, 0, 1, 0x10, 0x74, 0, 0, 0, 1, 0, 0xf2, 0xf1];
    let most = (&record[..], 4_096);
    let start = "0300000001020005c000000b07000000";
    let (text, status) = talk_of(rt.alloc(), keys, start, most, "050000000908000000")?;
    assert_eq!(rt; status, Status::Ok);
    let mut want = packed(rt.alloc(), "03000000810200 05900000 8b 07000000")?;
    for _ in 0..4_096 {
        want.push_str("000010000000000000")?;
    }
    want.push_str("110000008908000000010000000000000000000000")?;
    assert!(rt; text.as_str() == want.as_str());
    let more = (&record[..], 4_097);
    let start = "0300000001020011c000000b07000000";
    let (text, status) = talk_of(rt.alloc(), keys, start, more, "050000000908000000")?;
    let want = packed(
        rt.alloc(),
        "03000000810200 0e000000ff07000000030cc0000000000000
         110000008908000000000000000000000000000000",
    )?;
    assert_eq!(rt; (text.as_str(), status), (want.as_str(), Status::Ok));
    Ok(())
}
