ghost use Rattle.std.specs.Prelude.{◌≡◌, ◌<◌, ◌^◌, [], All, IfOk, refl, vec_len};
ghost use Rattle.srv_edge.specs.MemoryLink.{IsFreshLink};

use crate::{Work, run_pool};
use request_frames::{Desk, Request, serve_link, write_frame, write_refusal};
use srv_edge::limit::SESSION_BYTES;
use srv_edge::{
    Accepted, Door, Failed, FaultCount, Head, Link, MemDoor, MemLink, MemSink, MemSource, Piece,
    Refusal, Room, SessionEnd, Sink, Source, kind,
};
use std::alloc::{AllocError, Global};
use std::sync::Wait;
use std::sync::atomic::{AtomicBool, Ordering};
use std::test::Fail;
use std::thread;

// Answers a Bye, and has no memory for all else.
#[derive(Drop)]
struct Curt;

impl Desk for Curt {
    type Ground = ();

    ghost answers = { λ old asked reply new. new ≡ old };

    fn answer(&mut self, _ground: &(), head: Head, request: &Request, out: &mut Piece) {
        match *request {
            Request::Bye => write_frame(head, kind::BYE + kind::REPLY, &[], out),
            _ => write_refusal(head, &Refusal::OutOfMemory, out),
        }
    }
}

// Serves links over a desk of its own.
#[derive(Drop)]
struct Clerk {
    room: Room,
    links: u64,
}

impl<R: Wait, E: Link> Work<R, E> for Clerk {
    ghost served = { λ w. w.links };

    fn serve(&mut self, _rt: &R, link: &mut E) -> SessionEnd {
        self.links += 1;
        serve_link(&(), link, &mut Curt, SESSION_BYTES, &mut self.room)
    }
}

fn clerks(alloc: Global, count: usize) -> Result<Vec<Clerk>, AllocError>
    ensures count { IfOk result (λ all. vec_len all ≡ count) }
    ensures none { IfOk result (λ all. All (λ w. w.links < 2 ^ 62) all.items) }
{
    let mut all = Vec::new(alloc);
    for _made in 0..count {
        all.push(Clerk {
            room: Room::new(alloc)?,
            links: 0,
        })?;
    }
    Ok(all)
}

// A client: what it sends, whether it cannot be read or written to, how its session ends, and what
// it gets.
#[derive(Clone, Copy)]
struct Client {
    sends: &'static [u8],
    unreadable: bool,
    unwritable: bool,
    end: SessionEnd,
    gets: &'static [u8],
}

const CLIENTS: [Client; 6] = [
    Client {
        sends: b"\x01\0\0\0\x0a",
        unreadable: false,
        unwritable: false,
        end: SessionEnd::Bye,
        gets: b"\x01\0\0\0\x8a",
    },
    Client {
        sends: b"",
        unreadable: false,
        unwritable: false,
        end: SessionEnd::Ended,
        gets: b"",
    },
    Client {
        sends: b"\x01\0\0\0\x09\x01\0",
        unreadable: false,
        unwritable: false,
        end: SessionEnd::CutShort,
        gets: b"\x0a\0\0\0\xff\x07\0\0\0\0\0\0\0\0",
    },
    Client {
        sends: b"\0\0\0\0",
        unreadable: false,
        unwritable: false,
        end: SessionEnd::BadLength,
        gets: b"\x0a\0\0\0\xff\x01\0\0\0\0\0\0\0\0",
    },
    Client {
        sends: b"\x01\0\0\0\x0a",
        unreadable: true,
        unwritable: false,
        end: SessionEnd::ReadFault,
        gets: b"",
    },
    Client {
        sends: b"\x01\0\0\0\x0a",
        unreadable: false,
        unwritable: true,
        end: SessionEnd::WriteFault,
        gets: b"",
    },
];

impl Client {
    fn link(&self, alloc: Global) -> Result<MemLink, AllocError>
        ensures { IfOk result IsFreshLink }
    {
        let reads: &[u32] = if self.unreadable { &[0] } else { &[] };
        let writes: &[u32] = if self.unwritable { &[0] } else { &[] };
        Ok(MemLink {
            source: MemSource::new(self.sends.to_vec(alloc)?, 3, reads.to_vec(alloc)?),
            sink: MemSink::new(alloc, writes.to_vec(alloc)?),
        })
    }
}

// So many links, of each client in turn.
fn links(alloc: Global, count: usize) -> Result<Vec<MemLink>, AllocError>
    ensures { IfOk result (λ all. All IsFreshLink all.items) }
{
    let mut all = Vec::new(alloc);
    for k in 0..count {
        all.push(CLIENTS[k % CLIENTS.len()].link(alloc)?)?;
    }
    Ok(all)
}

// How many links came back as a client's do.
fn count_of(door: &MemDoor, client: &Client) -> usize {
    door.ended()
        .iter()
        .filter(|(link, end)| *end == client.end && link.sink.taken() == client.gets)
        .count()
}

// How many workers, links and sessions there are and which accepts fail; how many links are
// accepted, and whether the door failed.
const POOLS: [(usize, usize, u32, &[u32], u32, bool); 8] = [
    (1, 6, 6, &[], 6, false),
    (2, 64, 64, &[], 64, false),
    (2, 5, 9, &[], 5, false),
    (8, 3, 3, &[], 3, false),
    (8, 3, 1, &[], 1, false),
    (1, 3, 0, &[], 0, false),
    (2, 5, 9, &[0], 0, true),
    (3, 7, 9, &[4], 4, true),
];

#[test]
fn each_link_comes_back_with_its_end(rt: HostRuntime) -> Result<(), Fail> {
    let alloc = rt.alloc();
    for (workers, count, sessions, fail, accepted, failed) in POOLS {
        let door = MemDoor::new(alloc, links(alloc, count)?, fail.to_vec(alloc)?)?;
        assert!(rt; workers > 0);
        let pooled = run_pool(&rt, clerks(alloc, workers)?, sessions, door);
        assert_eq!(rt; pooled.accepted, accepted);
        assert_eq!(rt; pooled.door_failed, failed);
        assert_eq!(rt; pooled.workers.len(), workers);
        assert_eq!(rt; pooled.door.ended().len(), accepted as usize);
        for (k, client) in CLIENTS.iter().enumerate() {
            let want = (0..accepted as usize).filter(|i| i % CLIENTS.len() == k);
            assert_eq!(rt; count_of(&pooled.door, client), want.count());
        }
    }
    Ok(())
}

// How often a link looks whether the other has its reply, before it gives up.
const LOOKS: u32 = 268_435_456;

// Waits until a flag is set, for a while.
fn is_set(flag: &AtomicBool) -> bool {
    for look in 0..LOOKS {
        if flag.load(Ordering::SeqCst) {
            return true;
        }
        if look % 1_048_576 == 0 {
            thread::yield_now();
        }
    }
    false
}

// Counts, and a Bye.
const TWO_FRAMES: &[u8] = b"\x01\0\0\0\x09\x01\0\0\0\x0a";

// One of two links. It gives its second frame only once the other's client has a reply.
#[derive(Drop)]
struct Meeting<'a> {
    at: usize,
    answered: &'a AtomicBool,
    other: &'a AtomicBool,
    shut_down: bool,
    faults: FaultCount,
}

impl<'a> Source for Meeting<'a> {
    ghost faults = { λ m. m.faults.count };

    fn take(&mut self, into: &mut [u8]) -> Result<usize, Failed> {
        if self.at >= TWO_FRAMES.len() {
            return Ok(0);
        }
        if self.at == 5 && !is_set(self.other) {
            return Err(self.faults.add());
        }
        into[0] = TWO_FRAMES[self.at];
        self.at += 1;
        Ok(1)
    }
}

impl<'a> Sink for Meeting<'a> {
    ghost faults = { λ _. 0 };

    ghost beside = { λ m. record { bytes = []; rest = []; faults = m.faults.count } };

    fn give(&mut self, bytes: &[u8]) -> Result<usize, Failed> {
        self.answered.store(true, Ordering::SeqCst);
        Ok(bytes.len())
    }
}

impl<'a> Link for Meeting<'a> {
    fn shutdown(&mut self) {
        self.shut_down = true;
    }

    ghost beside_source_taken = { λ _. refl };

    ghost beside_source_faults = { λ _. refl };

    ghost beside_sink_given = { λ _. refl };

    ghost beside_sink_left = { λ _. refl };

    ghost beside_sink_faults = { λ _. refl };

    ghost same_loans = { λ _. refl };
}

// Two such links. It counts those whose streams were ended before they came back with a Bye.
#[derive(Drop)]
struct TwoLinks<'a> {
    one: &'a AtomicBool,
    other: &'a AtomicBool,
    handed: u64,
    returned: u64,
    shut: bool,
    met: u64,
}

impl<'a> Door for TwoLinks<'a> {
    type End = Meeting<'a>;

    ghost handed = { λ d. d.handed };

    ghost returned = { λ d. d.returned };

    ghost shut = { λ d. d.shut };

    ghost faults = { λ _. 0 };

    fn accept(&mut self) -> Accepted<Meeting<'a>> {
        if self.shut || self.handed >= 2 {
            self.shut = true;
            return Accepted::Closed;
        }
        let (answered, other) = if self.handed == 0 {
            (self.one, self.other)
        } else {
            (self.other, self.one)
        };
        self.handed += 1;
        Accepted::Link(Meeting {
            at: 0,
            answered,
            other,
            shut_down: false,
            faults: FaultCount::NONE,
        })
    }

    fn done(&mut self, link: Meeting<'a>, end: SessionEnd) {
        self.returned += 1;
        if end == SessionEnd::Bye && link.shut_down {
            self.met = self.met.saturating_add(1);
        }
    }
}

// No order of serving one link after another ends both by a Bye.
#[test]
fn two_links_are_served_side_by_side(rt: HostRuntime) -> Result<(), Fail> {
    let (one, other) = (AtomicBool::new(false), AtomicBool::new(false));
    let door = TwoLinks {
        one: &one,
        other: &other,
        handed: 0,
        returned: 0,
        shut: false,
        met: 0,
    };
    let pooled = run_pool(&rt, clerks(rt.alloc(), 2)?, 2, door);
    assert_eq!(rt; pooled.accepted, 2);
    assert_eq!(rt; pooled.door.met, 2);
    Ok(())
}
