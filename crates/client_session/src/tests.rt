//! A desk over a new file, by its frames as hexadecimal text. In the replies 82 to 8a are the kinds of
//! answers, and ff that of a refusal: its code, and its two numbers.
ghost use Rattle.std.specs.Prelude.{◌≡◌, is_some, true};

use crate::Solo;
use hub::Book;
use request_frames::serve_link;
use srv_edge::{Limits, MemDevice, MemLink, MemSink, MemSource, Room};
use std::alloc::Global;
use std::hash::RandomState;
use std::test::Fail;
use type_store::PdbFile;

/// The bytes of a hexadecimal text with spaces.
pub(crate) fn bytes_of(alloc: Global, text: &str) -> Result<Vec<u8>, Fail> {
    let mut bytes = Vec::new(alloc);
    for part in text.split_whitespace() {
        bytes.extend_from_slice(&hex::decode(alloc, part)?)?;
    }
    Ok(bytes)
}

/// A desk's replies to frames, over a book.
pub(crate) fn served(
    alloc: Global,
    book: &mut Book<MemDevice>,
    frames: Vec<u8>,
) -> Result<Vec<u8>, Fail>
    requires { is_some book.old.file ≡ true }
{
    let mut room = Room::new(alloc)?;
    let mut link = MemLink {
        source: MemSource::new(frames, 65_536, Vec::new(alloc)),
        sink: MemSink::new(alloc, Vec::new(alloc)),
    };
    let mut desk = Solo::new(alloc, book);
    serve_link(&(), &mut link, &mut desk, 10_000_000, &mut room);
    Ok(link.sink.taken().to_vec(alloc)?)
}

/// The same over a new file with these limits.
pub(crate) fn replies(
    alloc: Global,
    keys: RandomState,
    limits: Limits,
    frames: Vec<u8>,
) -> Result<Vec<u8>, Fail> {
    let device = MemDevice::new(alloc, Vec::new(alloc), Vec::new(alloc));
    let Ok((file, tables)) = PdbFile::create(alloc, keys, device, 4096, [0; 16], 0, limits) else {
        return Err(Fail::new("no new file"));
    };
    let mut book = Book::new(file, tables);
    served(alloc, &mut book, frames)
}

/// The first line of this text whose frames are answered otherwise than it says.
pub(crate) fn first_wrong<'a>(
    alloc: Global,
    keys: RandomState,
    limits: Limits,
    rows: &'a str,
) -> Result<Option<&'a str>, Fail> {
    for row in rows.lines() {
        let (frames, want) = row.split_once('=').unwrap_or((row, ""));
        let got = replies(alloc, keys, limits, bytes_of(alloc, frames)?)?;
        if got != bytes_of(alloc, want)? {
            return Ok(Some(row));
        }
    }
    Ok(None)
}

// Records, their gets and the counts; leaves that are none; items and names; hello, frames that are no
// requests, and commits.
const ROWS: &str = "\
0d000000020a000110740000000100f2f1 = 050000008200100000
0d000000020a000110740000000100f2f1 0d000000020a000110740000000100f2f1 0100000009 = 050000008200100000 050000008200100000 0d00000089010000000000000000000000
0d000000020a000110740000000100f2f1 0d000000020a000110740000000100f1f1 = 050000008200100000 050000008201100000
050000000500100000 050000000574000000 = 0a000000ff050000000000100000 0a000000ff050000000074000000
0d000000020a000110740000000100f2f1 050000000500100000 = 050000008200100000 0d000000850a000110740000000100f2f1
0d000000020a000110001000000100f2f1 = 0a000000ff050000000000100000
0d000000020a000110740000000100f2f1 0d000000020a000110001000000100f2f1 = 050000008200100000 050000008201100000
09000000020600011200000000 0d000000020a000112ffffffff74000000 = 050000008200100000 0a000000ff040800000003000000
11000000020e0003120d1503007400000005806100 = 0a000000ff040c00000004000000
1500000002120003120d150300740000000000616200f00000 = 0a000000ff041100000006000000
1500000002120003120d150300740000000000616200f3f2f1 = 050000008200100000
0d000000020a0006121000000074000000 = 0a000000ff040c00000003000000
11000000020e0003120d1503007400000000007800 21000000021e00051501000002001000000000000000000000040053002e3f415553404000 = 050000008200100000 050000008201100000
0100000004 020000000461 03000000046263 020000000461 050000000702000000 050000000703000000 = 050000008400000000 050000008401000000 050000008403000000 050000008401000000 0a000000ff050200000002000000 03000000876263
0d000000030a000516000000006100f2f1 050000000600100000 = 050000008300100000 0d000000860a000516000000006100f2f1
11000000030e00011600000000001000006600f2f1 0d000000020a000516000000006100f2f1 = 0a000000ff050000000000100000 0a000000ff040200000002000000
00000000 = 0a000000ff010000000000000000
02000100 = 0a000000ff010200010000000000
020000006300 03000000050010 03000000010100 010000000a 0100000009 = 0a000000ff026300000000000000 0a000000ff030200000000000000 03000000810100 010000008a
0d000000020a000110740000000100f2f1 0100000008 0100000008 = 050000008200100000 050000008802000000 050000008803000000
0d000000020a0001 =
=";

#[test]
fn frames_by_their_replies(rt: HostRuntime) -> Result<(), Fail> {
    let keys = RandomState::new(&rt)?;
    let wrong = first_wrong(rt.alloc(), keys, Limits::STANDARD, ROWS)?;
    assert_eq!(rt; wrong, None);
    Ok(())
}
