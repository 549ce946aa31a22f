//! The command `serve` over doors in memory, and over clients that wait for one another.

ghost use Rattle.std.specs.Prelude.{◌≡◌, [], All, IfOk, IsErr, refl};
ghost use Rattle.srv_edge.specs.Count.{HasCause};
ghost use Rattle.srv_edge.specs.MemoryLink.{IsFreshLink};

use crate::running::{bytes_of, device_with, new_file, words_of};
use crate::server::{Closed, run_server};
use program_status::Status;
use srv_edge::{
    Accepted, Device, Door, Failed, FaultCount, Link, MemDevice, MemDoor, MemLink, MemSink,
    MemSource, SessionEnd, Sink, Source, StillDevice,
};
use std::alloc::{AllocError, Global};
use std::hash::RandomState;
use std::sync::Wait;
use std::sync::atomic::{AtomicBool, Ordering};
use std::test::Fail;
use std::thread::{self, Threads};

// A link that gives these bytes, and of whose calls to give these fail.
fn link(alloc: Global, sends: Vec<u8>, fail: &[u32]) -> Result<MemLink, AllocError>
    ensures { IfOk result IsFreshLink }
{
    Ok(MemLink {
        source: MemSource::new(sends, 65_536, Vec::new(alloc)),
        sink: MemSink::new(alloc, fail.to_vec(alloc)?),
    })
}

// Two links: by the one comes an AddType of a modifier and a Bye, by the other the same with a GetType
// between them. The first cannot be written to, where that is asked.
fn links(alloc: Global, unwritable: bool) -> Result<Vec<MemLink>, Fail>
    ensures { IfOk result (λ all. All IsFreshLink all.items) }
{
    let fail: &[u32] = if unwritable { &[0] } else { &[] };
    let one = bytes_of(alloc, "0d000000020a000110740000000100f2f1 010000000a")?;
    let other = bytes_of(
        alloc,
        "0d000000020a000110740000000100f2f1 050000000500100000 010000000a",
    )?;
    let mut all = Vec::new(alloc);
    all.push(link(alloc, one, fail)?)?;
    all.push(link(alloc, other, &[])?)?;
    Ok(all)
}

// What a server leaves behind the links of a door: its summary, its status, how many calls its journal
// has, and the door.
#[derive(Drop)]
struct Left {
    text: String,
    status: Status,
    calls: u32,
    door: MemDoor,
}

// How many calls a server's journal has.
fn calls_in(closed: Closed<MemDevice>) -> u32 {
    match closed {
        Closed::Served(left) => left.journal.len(),
        Closed::Early(_device) => 0,
    }
}

// Serves links over a file, by a door of which these accepts fail.
fn served<R: Threads + Wait + Send + Sync>(
    rt: &R,
    alloc: Global,
    keys: RandomState,
    file: &[u8],
    line: &str,
    links: Vec<MemLink>,
    fail: &[u32],
) -> Result<Left, Fail>
    requires { All IsFreshLink links.items }
{
    let words = words_of(alloc, line)?;
    let device = device_with(alloc, file, &[])?;
    let door = MemDoor::new(alloc, links, fail.to_vec(alloc)?)?;
    let mut sink = MemSink::new(alloc, Vec::new(alloc));
    let (status, closed, door) = run_server(rt, alloc, keys, &words, door, &mut sink, device);
    let calls = calls_in(closed);
    let text = String::from_utf8_lossy(alloc, sink.taken())?;
    Ok(Left {
        text,
        status,
        calls,
        door,
    })
}

// How many links came back with this end, and had these replies.
fn count_of(alloc: Global, door: &MemDoor, end: SessionEnd, replies: &str) -> Result<usize, Fail> {
    let want = bytes_of(alloc, replies)?;
    let mut count = 0usize;
    for (link, got) in door.ended() {
        if *got == end && link.sink.taken() == want.as_slice() {
            count = count.saturating_add(1);
        }
    }
    Ok(count)
}

// What comes back.
const ADDED: &str = "050000008200100000 010000008a";

const GOT: &str = "050000008200100000 0d000000850a000110740000000100f2f1 010000008a";

const SUMMARY: &str = "served sessions=2 calls=3 types=1 items=0 names=0 commit=1\n";

const SERVE_TWO: &str = "serve P --listen S --sessions 2";

#[test]
fn two_clients(rt: HostRuntime) -> Result<(), Fail> {
    let alloc = rt.alloc();
    let keys = RandomState::new(&rt)?;
    let file = new_file(alloc, keys)?;
    let all = links(alloc, false)?;
    let left = served(&rt, alloc, keys, &file, SERVE_TWO, all, &[])?;
    assert_eq!(rt; left.text.as_str(), SUMMARY);
    assert_eq!(rt; (left.status, left.calls), (Status::Ok, 3));
    assert_eq!(rt; count_of(alloc, &left.door, SessionEnd::Bye, ADDED)?, 1);
    assert_eq!(rt; count_of(alloc, &left.door, SessionEnd::Bye, GOT)?, 1);
    Ok(())
}

// The first of them cannot be written to: its call is made, and the other is served.
#[test]
fn a_client_that_cannot_be_written_to(rt: HostRuntime) -> Result<(), Fail> {
    let alloc = rt.alloc();
    let keys = RandomState::new(&rt)?;
    let file = new_file(alloc, keys)?;
    let all = links(alloc, true)?;
    let left = served(&rt, alloc, keys, &file, SERVE_TWO, all, &[])?;
    assert_eq!(rt; left.text.as_str(), SUMMARY);
    assert_eq!(rt; (left.status, left.calls), (Status::Ok, 3));
    assert_eq!(rt; count_of(alloc, &left.door, SessionEnd::WriteFault, "")?, 1);
    assert_eq!(rt; count_of(alloc, &left.door, SessionEnd::Bye, GOT)?, 1);
    Ok(())
}

#[test]
fn a_door_that_fails(rt: HostRuntime) -> Result<(), Fail> {
    let alloc = rt.alloc();
    let keys = RandomState::new(&rt)?;
    let file = new_file(alloc, keys)?;
    let left = served(&rt, alloc, keys, &file, SERVE_TWO, Vec::new(alloc), &[0])?;
    assert_eq!(rt;
        left.text.as_str(),
        "served sessions=0 calls=0 types=0 items=0 names=0 commit=1\n"
    );
    assert_eq!(rt; (left.status.code(), left.calls), (11, 0));
    let left = served(&rt, alloc, keys, &file, "check P", Vec::new(alloc), &[0])?;
    assert_eq!(rt; (left.status, left.text.as_str()), (Status::Usage, ""));
    Ok(())
}

// A client that is gone within a frame makes no call by it.
#[test]
fn clients_that_die(rt: HostRuntime) -> Result<(), Fail> {
    let alloc = rt.alloc();
    let keys = RandomState::new(&rt)?;
    let file = new_file(alloc, keys)?;
    let sends = bytes_of(alloc, "0d000000020a000110740000000100f2f1010000000a")?;
    for size in 0..=sends.len() {
        let mut all = Vec::new(alloc);
        all.push(link(alloc, sends[..size].to_vec(alloc)?, &[])?)?;
        let line = "serve P --listen S --sessions 1";
        let left = served(&rt, alloc, keys, &file, line, all, &[])?;
        assert_eq!(rt;
            (left.status, left.calls),
            (Status::Ok, u32::from(size >= 17))
        );
    }
    Ok(())
}

// How often a client looks whether its flag is set, before it gives up.
const LOOKS: u32 = 268_435_456;

/// Waits until a flag is set, for a while.
pub(crate) fn is_set(flag: &AtomicBool) -> bool {
    for look in 0..LOOKS {
        if flag.load(Ordering::SeqCst) {
            return true;
        }
        if look % 1_048_576 == 0 {
            thread::yield_now();
        }
    }
    false
}

// What a client sends. It gives the byte at one place only once a flag is set, and sets another when
// it gets a reply.
#[derive(Clone, Copy)]
struct Script<'a> {
    sends: &'static [u8],
    waits_at: usize,
    until: &'a AtomicBool,
    answered: &'a AtomicBool,
}

// A link to such a client.
#[derive(Drop)]
struct Client<'a> {
    script: Script<'a>,
    at: usize,
    refused: bool,
    faults: FaultCount,
}

impl<'a> Source for Client<'a> {
    ghost faults = { λ c. c.faults.count };

    fn take(&mut self, into: &mut [u8]) -> Result<usize, Failed> {
        if self.at >= self.script.sends.len() {
            return Ok(0);
        }
        if self.at == self.script.waits_at && !is_set(self.script.until) {
            return Err(self.faults.add());
        }
        into[0] = self.script.sends[self.at];
        self.at += 1;
        Ok(1)
    }
}

impl<'a> Sink for Client<'a> {
    ghost faults = { λ _. 0 };

    ghost beside = { λ c. record { bytes = []; rest = []; faults = c.faults.count } };

    fn give(&mut self, bytes: &[u8]) -> Result<usize, Failed> {
        self.script.answered.store(true, Ordering::SeqCst);
        if bytes.get(4) == Some(&255) {
            self.refused = true;
        }
        Ok(bytes.len())
    }
}

impl<'a> Link for Client<'a> {
    fn shutdown(&mut self) {}

    ghost beside_source_taken = { λ _. refl };

    ghost beside_source_faults = { λ _. refl };

    ghost beside_sink_given = { λ _. refl };

    ghost beside_sink_left = { λ _. refl };

    ghost beside_sink_faults = { λ _. refl };

    ghost same_loans = { λ _. refl };
}

// A door with two such clients. It counts those that came back with a Bye and no refusal.
#[derive(Drop)]
struct TwoClients<'a> {
    one: Script<'a>,
    other: Script<'a>,
    handed: u64,
    returned: u64,
    shut: bool,
    content: u64,
}

impl<'a> TwoClients<'a> {
    fn new(one: Script<'a>, other: Script<'a>) -> TwoClients<'a>
        ensures handed { result.handed ≡ 0 }
        ensures returned { result.returned ≡ 0 }
    {
        TwoClients {
            one,
            other,
            handed: 0,
            returned: 0,
            shut: false,
            content: 0,
        }
    }
}

impl<'a> Door for TwoClients<'a> {
    type End = Client<'a>;

    ghost handed = { λ d. d.handed };

    ghost returned = { λ d. d.returned };

    ghost shut = { λ d. d.shut };

    ghost faults = { λ _. 0 };

    fn accept(&mut self) -> Accepted<Client<'a>> {
        if self.shut || self.handed >= 2 {
            self.shut = true;
            return Accepted::Closed;
        }
        let script = if self.handed == 0 {
            self.one
        } else {
            self.other
        };
        self.handed += 1;
        Accepted::Link(Client {
            script,
            at: 0,
            refused: false,
            faults: FaultCount::NONE,
        })
    }

    fn done(&mut self, link: Client<'a>, end: SessionEnd) {
        self.returned += 1;
        if end == SessionEnd::Bye && !link.refused {
            self.content = self.content.saturating_add(1);
        }
    }
}

/// A file in memory. The first sync behind a write sets a flag, and waits for another.
#[derive(Drop)]
pub(crate) struct SlowSync<'a> {
    file: StillDevice,
    written: bool,
    begun: &'a AtomicBool,
    until: &'a AtomicBool,
    faults: FaultCount,
}

impl<'a> SlowSync<'a> {
    // The answer of the file, with a fault counted.
    fn answered<T>(&mut self, answer: Result<T, Failed>) -> Result<T, Failed>
        ensures { HasCause (IsErr result) self.old.faults.count self.new.faults.count }
    {
        match answer {
            Ok(x) => Ok(x),
            Err(_) => Err(self.faults.add()),
        }
    }
}

impl<'a> Device for SlowSync<'a> {
    ghost fault_count = { λ d. d.faults.count };

    ghost told = { λ d c none. absurd none };

    ghost seen_is_one = { λ d no. Prim.cc };

    ghost counts_now = { λ d t c le none. none };

    ghost only_now = { λ d c none. none };

    fn size(&mut self) -> Result<u64, Failed> {
        let answer = self.file.size();
        self.answered(answer)
    }

    fn read(&mut self, at: u64, out: &mut [u8]) -> Result<(), Failed> {
        let answer = self.file.read(at, out);
        self.answered(answer)
    }

    fn write(&mut self, at: u64, bytes: &[u8]) -> Result<(), Failed> {
        self.written = true;
        let answer = self.file.write(at, bytes);
        self.answered(answer)
    }

    fn write_super(&mut self, bytes: &[u8; 56]) -> Result<(), Failed> {
        let answer = self.file.write_super(bytes);
        self.answered(answer)
    }

    fn sync(&mut self) -> Result<(), Failed> {
        if self.written {
            self.written = false;
            self.begun.store(true, Ordering::SeqCst);
            if !is_set(self.until) {
                return Err(self.faults.add());
            }
        }
        let answer = self.file.sync();
        self.answered(answer)
    }

    fn faults(&self) -> u64 {
        self.faults.count
    }
}

/// A file in memory over the bytes of a new file, in which a commit waits for a flag.
pub(crate) fn slow_file<'a>(
    alloc: Global,
    keys: RandomState,
    begun: &'a AtomicBool,
    until: &'a AtomicBool,
) -> Result<SlowSync<'a>, Fail> {
    let bytes = new_file(alloc, keys)?;
    if bytes.len() > 1_048_576 {
        return Err(Fail::new("a new file is short"));
    }
    Ok(SlowSync {
        file: StillDevice::new(alloc, bytes, 1_048_576)?,
        written: false,
        begun,
        until,
        faults: FaultCount::NONE,
    })
}

const ADD_COMMIT_BYE: &[u8] = b"\x0d\0\0\0\x02\x0a\0\x01\x10\x74\0\0\0\x01\0\xf2\xf1\
    \x01\0\0\0\x08\x01\0\0\0\x0a";

const ADD_BYE: &[u8] = b"\x0d\0\0\0\x02\x0a\0\x01\x10\x74\0\0\0\x02\0\xf2\xf1\x01\0\0\0\x0a";

const COUNTS_BYE: &[u8] = b"\x01\0\0\0\x09\x01\0\0\0\x0a";

// How a server ends that serves two such clients side by side, and how many of them were content.
fn met<'a, R: Threads + Wait + Send + Sync>(
    rt: &R,
    alloc: Global,
    keys: RandomState,
    one: Script<'a>,
    other: Script<'a>,
    device: SlowSync<'a>,
) -> Result<(Status, u64), Fail> {
    let words = words_of(alloc, "serve P --listen S --sessions 2 --workers 2")?;
    let mut sink = MemSink::new(alloc, Vec::new(alloc));
    let door = TwoClients::new(one, other);
    let (status, _closed, door) = run_server(rt, alloc, keys, &words, door, &mut sink, device);
    Ok((status, door.content))
}

// A commit writes while another client is answered.
#[test]
fn a_commit_holds_up_no_other(rt: HostRuntime) -> Result<(), Fail> {
    let alloc = rt.alloc();
    let keys = RandomState::new(&rt)?;
    let begun = AtomicBool::new(false);
    let committed = AtomicBool::new(false);
    let answered = AtomicBool::new(false);
    let commits = Script {
        sends: ADD_COMMIT_BYE,
        waits_at: 99,
        until: &begun,
        answered: &committed,
    };
    let adds = Script {
        sends: ADD_BYE,
        waits_at: 0,
        until: &begun,
        answered: &answered,
    };
    let device = slow_file(alloc, keys, &begun, &answered)?;
    assert_eq!(rt;
        met(&rt, alloc, keys, commits, adds, device)?,
        (Status::Ok, 2)
    );
    Ok(())
}

// No order of serving one link after another ends both by a Bye.
#[test]
fn two_clients_are_served_side_by_side(rt: HostRuntime) -> Result<(), Fail> {
    let alloc = rt.alloc();
    let keys = RandomState::new(&rt)?;
    let one = AtomicBool::new(false);
    let other = AtomicBool::new(false);
    let first = Script {
        sends: COUNTS_BYE,
        waits_at: 5,
        until: &other,
        answered: &one,
    };
    let second = Script {
        sends: COUNTS_BYE,
        waits_at: 5,
        until: &one,
        answered: &other,
    };
    let device = slow_file(alloc, keys, &one, &one)?;
    assert_eq!(rt;
        met(&rt, alloc, keys, first, second, device)?,
        (Status::Ok, 2)
    );
    Ok(())
}
