//! Sessions by their bytes, as hexadecimal text. In the replies 82 to 8a are the kinds of answers,
//! and ff that of a refusal: its code, and its two numbers.
ghost use Rattle.std.specs.Prelude.{◌<◌, ◌≡◌, true};

use crate::commands::run;
use crate::running::{bytes_of, device_with, new_file, words_of};
use crate::version_tests::in_version_2;
use program_status::Status;
use srv_edge::{Failed, FileDevice, MemSink, MemSource, Sink};
use std::alloc::Global;
use std::fs::File;
use std::hash::RandomState;
use std::test::Fail;

// A modifier of type 74 with attribute 1, as an AddType.
const ADD: &str = "0d000000 02 0a000110 74000000 0100f2f1";

const FIRST: &str = "050000008200100000";

// Two of them, and their two replies.
const TWO: &str = "0d000000020a000110740000000100f2f1 0d000000020a000110740000000100f2f1";

const TWICE: &str = "050000008200100000050000008200100000";

// A session's input comes in pieces of so many bytes and one more: in one piece, a byte each, and
// seven.
pub(crate) const PIECES: [u8; 3] = [255, 0, 6];

fn source_of(alloc: Global, input: &str, piece: usize, fail: &[u32]) -> Result<MemSource, Fail>
    requires { 0 < piece }
{
    Ok(MemSource::new(
        bytes_of(alloc, input)?,
        piece,
        Vec::from_slice(alloc, fail)?,
    ))
}

// The replies of a session over a file as hexadecimal text, and its status, with a source that gives
// a byte and at most so many more in each call.
pub(crate) fn talk(
    alloc: Global,
    keys: RandomState,
    file: &[u8],
    input: &str,
    more: u8,
    source_fails: &[u32],
    sink_fails: &[u32],
) -> Result<(String, Status), Fail> {
    let mut source = source_of(alloc, input, usize::from(more) + 1, source_fails)?;
    let mut sink = MemSink::new(alloc, Vec::from_slice(alloc, sink_fails)?);
    let words = words_of(alloc, "session P")?;
    let device = device_with(alloc, file, &[])?;
    let status = run(alloc, keys, &words, &mut source, &mut sink, device).0;
    Ok((hex::encode(alloc, sink.taken())?, status))
}

// The text without its spaces.
pub(crate) fn packed(alloc: Global, text: &str) -> Result<String, Fail> {
    let mut all = String::new(alloc);
    for part in text.split_whitespace() {
        all.push_str(part)?;
    }
    Ok(all)
}

// Sessions over a new file: what is sent, what comes back, and how it ends. Records of types: the
// first, twice, another padding, gets of a missing, a simple and a present index, a modifier of a
// missing type and of one that is there, a structure with its field list, an item and a name, and
// no record at all. Frames: lengths of 0 and of 65,538, an unknown kind, a commit with a body,
// bodies that are too short, of version 0 and behind a Bye. Leaves: lists that are empty or cannot
// fit, members with an unknown numeric leaf and with pads, a method that lacks its offset. Items,
// also sent as types; names by their offsets, with a NUL, and the empty one; a Bye, behind which
// nothing is read; no input and input that is cut.
const SESSIONS: &str = "\
    0d000000020a000110740000000100f2f1 => 050000008200100000 => ok\n\
    0d000000020a000110740000000100f2f1 0d000000020a000110740000000100f2f1 0100000009 => 050000008200100000 050000008200100000 0d00000089010000000000000000000000 => ok\n\
    0d000000020a000110740000000100f2f1 0d000000020a000110740000000100f1f1 => 050000008200100000 050000008201100000 => ok\n\
    050000000500100000 => 0a000000ff050000000000100000 => ok\n\
    050000000574000000 => 0a000000ff050000000074000000 => ok\n\
    0d000000020a000110740000000100f2f1 050000000500100000 => 050000008200100000 0d000000850a000110740000000100f2f1 => ok\n\
    0d000000020a000110001000000100f2f1 => 0a000000ff050000000000100000 => ok\n\
    0d000000020a000110740000000100f2f1 0d000000020a000110001000000100f2f1 => 050000008200100000 050000008201100000 => ok\n\
    11000000020e0003120d1503007400000000007800 21000000021e0005150100000200100000000000000000000004005300 2e3f41555340 4000 11000000030e00061601100000 0000000007000000 020000000461 0100000009 010000000a => 050000008200100000 050000008201100000 050000008300100000 050000008401000000 0d00000089020000000100000001000000 010000008a => ok\n\
    0100000002 => 0a000000ff040000000001000000 => ok\n\
    00000000 => 0a000000ff010000000000000000 => bad length\n\
    02000100 => 0a000000ff010200010000000000 => bad length\n\
    020000006300 020000000800 => 0a000000ff026300000000000000 0a000000ff030100000000000000 => ok\n\
    03000000050010 => 0a000000ff030200000000000000 => ok\n\
    03000000010000 0400000001010000 => 0a000000ff030200000000000000 0a000000ff030300000000000000 => ok\n\
    020000000a00 03000000010200 => 0a000000ff030100000000000000 03000000810200 => ok\n\
    09000000020600011200000000 => 050000008200100000 => ok\n\
    0d000000020a000112ffffffff74000000 => 0a000000ff040800000003000000 => ok\n\
    11000000020e0003120d1503007400000005806100 => 0a000000ff040c00000004000000 => ok\n\
    1500000002120003120d150300740000000000616200f00000 => 0a000000ff041100000006000000 => ok\n\
    1500000002120003120d150300740000000000616200f3f2f1 => 050000008200100000 => ok\n\
    0d000000020a0006121000000074000000 => 0a000000ff040c00000003000000 => ok\n\
    11000000020e0003120d1503007400000000007800 21000000021e00051501000002001000000000000000000000040053002e3f415553404000 => 050000008200100000 050000008201100000 => ok\n\
    0d000000030a000516000000006100f2f1 050000000600100000 0100000009 => 050000008300100000 0d000000860a000516000000006100f2f1 0d00000089000000000100000000000000 => ok\n\
    11000000030e00011600000000001000006600f2f1 => 0a000000ff050000000000100000 => ok\n\
    0d000000020a000516000000006100f2f1 050000000600100000 => 0a000000ff040200000002000000 0a000000ff050100000000100000 => ok\n\
    0100000004 020000000461 03000000046263 020000000461 => 050000008400000000 050000008401000000 050000008403000000 050000008401000000 => ok\n\
    020000000461 03000000046263 050000000702000000 050000000703000000 => 050000008401000000 050000008403000000 0a000000ff050200000002000000 03000000876263 => ok\n\
    03000000046100 050000000700000000 => 0a000000ff030200000000000000 0100000087 => ok\n\
    03000000010100 010000000a 0d000000020a000110740000000100f2f1 => 03000000810100 010000008a => ok\n\
    \x20=>  => ok\n\
    0d000000020a000110 =>  => cut short";

#[test]
fn sessions_by_their_bytes(rt: HostRuntime) -> Result<(), Fail> {
    let alloc = rt.alloc();
    let keys = RandomState::new(&rt)?;
    let file = new_file(alloc, keys, "")?;
    for case in SESSIONS.split('\n') {
        let (input, rest) = case.split_once(" => ").unwrap_or(("", ""));
        let (replies, end) = rest.split_once(" => ").unwrap_or(("", ""));
        let want = packed(alloc, replies)?;
        for more in PIECES {
            let (text, status) = talk(alloc, keys, &file, input, more, &[], &[])?;
            assert_eq!(rt;
                (text.as_str(), status.word()),
                (want.as_str(), end),
                "at {input}"
            );
        }
        if end == "ok" {
            let (text, want) = talk_in_version_2(alloc, keys, &file, input, replies)?;
            assert_eq!(rt;
                text.as_str().get(14..),
                want.as_str().get(14..),
                "at {input}"
            );
        }
    }
    Ok(())
}

// What comes back of a session in version 2, and what is wanted.
fn talk_in_version_2(
    alloc: Global,
    keys: RandomState,
    file: &[u8],
    input: &str,
    replies: &str,
) -> Result<(String, String), Fail> {
    let input = in_version_2(alloc, input)?;
    let want = in_version_2(alloc, replies)?;
    let (text, _) = talk(alloc, keys, file, input.as_str(), 255, &[], &[])?;
    Ok((text, want))
}

// The source fails at one of its five calls, or the sink at one of its two.
#[test]
fn faults_at_each_call(rt: HostRuntime) -> Result<(), Fail> {
    let keys = RandomState::new(&rt)?;
    let alloc = rt.alloc();
    let file = new_file(alloc, keys, "")?;
    for (call, replies) in [(0, ""), (1, ""), (2, FIRST), (3, FIRST), (4, TWICE)] {
        let (text, status) = talk(alloc, keys, &file, TWO, 255, &[call], &[])?;
        assert_eq!(rt;
            (text.as_str(), status),
            (replies, Status::ReadFault),
            "at {call}"
        );
    }
    for (call, replies) in [(0, ""), (1, FIRST)] {
        let (text, status) = talk(alloc, keys, &file, TWO, 255, &[], &[call])?;
        assert_eq!(rt;
            (text.as_str(), status),
            (replies, Status::WriteFault),
            "at {call}"
        );
    }
    let (text, status) = talk(alloc, keys, &file, TWO, 255, &[5], &[2])?;
    assert_eq!(rt; (text.as_str(), status), (TWICE, Status::Ok));
    Ok(())
}

// The same in pieces of a byte, where the source is asked 35 times.
#[test]
fn faults_between_bytes(rt: HostRuntime) -> Result<(), Fail> {
    let keys = RandomState::new(&rt)?;
    let alloc = rt.alloc();
    let file = new_file(alloc, keys, "")?;
    for (call, replies) in [(0, ""), (16, ""), (17, FIRST), (33, FIRST), (34, TWICE)] {
        let (text, status) = talk(alloc, keys, &file, TWO, 0, &[call], &[])?;
        assert_eq!(rt;
            (text.as_str(), status),
            (replies, Status::ReadFault),
            "at {call}"
        );
    }
    for (call, replies) in [(0, ""), (1, FIRST)] {
        let (text, status) = talk(alloc, keys, &file, TWO, 0, &[], &[call])?;
        assert_eq!(rt;
            (text.as_str(), status),
            (replies, Status::WriteFault),
            "at {call}"
        );
    }
    Ok(())
}

// Words that are no form read nothing, and so does a session over a file that is not there.
#[test]
fn nothing_is_read(rt: HostRuntime) -> Result<(), Fail> {
    let alloc = rt.alloc();
    let keys = RandomState::new(&rt)?;
    let mut source = source_of(alloc, ADD, 1000, &[])?;
    let mut sink = MemSink::new(alloc, Vec::new(alloc));
    for (line, status) in [
        ("session", Status::Usage),
        ("session P Q", Status::Usage),
        ("session P", Status::DiskFault),
    ] {
        let words = words_of(alloc, line)?;
        let device: FileDevice<File> = FileDevice::absent();
        let got = run(alloc, keys, &words, &mut source, &mut sink, device).0;
        assert_eq!(rt; got, status, "{line}");
    }
    let words = words_of(alloc, "session P")?;
    let device = device_with(alloc, &new_file(alloc, keys, "")?, &[])?;
    let status = run(alloc, keys, &words, &mut source, &mut sink, device).0;
    assert_eq!(rt; (status, status.code()), (Status::Ok, 0));
    assert_eq!(rt; hex::encode(alloc, sink.taken())?.as_str(), FIRST);
    Ok(())
}

// A sink that takes one byte a call.
#[derive(Drop)]
struct Drip {
    taken: Vec<u8>,
    faults: u64,
}

impl Sink for Drip {
    ghost tells = { true };

    ghost taken = { λ d. d.taken.items };

    ghost faults = { λ d. d.faults };

    fn give(&mut self, bytes: &[u8]) -> Result<usize, Failed> {
        let faults = self.faults;
        match self.taken.push(bytes[0]) {
            Ok(()) => Ok(1),
            Err(_) => {
                self.faults = faults.saturating_add(1);
                Err(Failed)
            }
        }
    }
}

#[test]
fn one_byte_a_give(rt: HostRuntime) -> Result<(), Fail> {
    let keys = RandomState::new(&rt)?;
    let mut source = source_of(rt.alloc(), TWO, 1, &[])?;
    let mut sink = Drip {
        taken: Vec::new(rt.alloc()),
        faults: 0,
    };
    let words = words_of(rt.alloc(), "session P")?;
    let device = device_with(rt.alloc(), &new_file(rt.alloc(), keys, "")?, &[])?;
    let status = run(rt.alloc(), keys, &words, &mut source, &mut sink, device).0;
    assert_eq!(rt; status, Status::Ok);
    let text = hex::encode(rt.alloc(), sink.taken.as_slice())?;
    assert_eq!(rt; text.as_str(), TWICE);
    Ok(())
}

// The replies of a session over a new file whose input begins so and then has so many bytes of one
// kind, and its end.
pub(crate) fn talk_of(
    alloc: Global,
    keys: RandomState,
    start: &str,
    rest: (&[u8], u32),
    end: &str,
) -> Result<(String, Status), Fail> {
    let mut bytes = hex::decode(alloc, start)?;
    for _ in 0..rest.1 {
        bytes.extend_from_slice(rest.0)?;
    }
    bytes.extend_from_slice(&hex::decode(alloc, end)?)?;
    let mut source = MemSource::new(bytes, 65_536, Vec::new(alloc));
    let mut sink = MemSink::new(alloc, Vec::new(alloc));
    let words = words_of(alloc, "session P")?;
    let device = device_with(alloc, &new_file(alloc, keys, "")?, &[])?;
    let status = run(alloc, keys, &words, &mut source, &mut sink, device).0;
    Ok((hex::encode(alloc, sink.taken())?, status))
}

// The longest record is taken, a list of 16,382 arguments, and the longest name. A name of a byte
// more is a bad body, and leaves the tables empty.
#[test]
fn longest_record_and_name(rt: HostRuntime) -> Result<(), Fail> {
    let keys = RandomState::new(&rt)?;
    let alloc = rt.alloc();
    let (replies, status) = talk_of(
        alloc,
        keys,
        "0100010002feff0112fe3f0000",
        (&[0x74, 0, 0, 0], 16_382),
        "",
    )?;
    assert_eq!(rt; (replies.as_str(), status), (FIRST, Status::Ok));
    let (replies, status) = talk_of(alloc, keys, "0000010004", (b"a", 65_535), "")?;
    assert_eq!(rt;
        (replies.as_str(), status),
        ("050000008401000000", Status::Ok)
    );
    let (replies, status) = talk_of(alloc, keys, "0100010004", (b"a", 65_536), "0100000009")?;
    let want = "0a000000ff0300000100000000000d00000089000000000000000000000000";
    assert_eq!(rt; (replies.as_str(), status), (want, Status::Ok));
    Ok(())
}
