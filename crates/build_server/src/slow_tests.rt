//! Two clients who send and take one byte a call, the one while the other's commit is written.

ghost use Rattle.std.specs.Prelude.{◌≡◌, [], refl};

use crate::running::words_of;
use crate::server::run_server;
use crate::tests::{is_set, slow_file};
use program_status::Status;
use srv_edge::{Accepted, Door, Failed, FaultCount, Link, MemSink, SessionEnd, Sink, Source};
use std::hash::RandomState;
use std::sync::atomic::{AtomicBool, Ordering};
use std::test::Fail;

// What a client sends once a flag is set, and what it is to get, after which it sets another.
#[derive(Clone, Copy)]
struct Script<'a> {
    sends: &'static [u8],
    gets: &'static [u8],
    until: &'a AtomicBool,
    served: &'a AtomicBool,
}

// A link to such a client, of one byte a call both ways.
#[derive(Drop)]
struct Drip<'a> {
    script: Script<'a>,
    at: usize,
    got: usize,
    differs: bool,
    faults: FaultCount,
}

impl<'a> Source for Drip<'a> {
    ghost faults = { λ d. d.faults.count };

    fn take(&mut self, into: &mut [u8]) -> Result<usize, Failed> {
        if self.at >= self.script.sends.len() {
            return Ok(0);
        }
        if self.at == 0 && !is_set(self.script.until) {
            return Err(self.faults.add());
        }
        into[0] = self.script.sends[self.at];
        self.at += 1;
        Ok(1)
    }
}

impl<'a> Sink for Drip<'a> {
    ghost faults = { λ _. 0 };

    ghost beside = { λ d. record { bytes = []; rest = []; faults = d.faults.count } };

    fn give(&mut self, bytes: &[u8]) -> Result<usize, Failed> {
        if self.script.gets.get(self.got) == Some(&bytes[0]) {
            self.got += 1;
        } else {
            self.differs = true;
        }
        if self.got == self.script.gets.len() {
            self.script.served.store(true, Ordering::SeqCst);
        }
        Ok(1)
    }
}

impl<'a> Link for Drip<'a> {
    fn shutdown(&mut self) {}

    ghost beside_source_taken = { λ _. refl };

    ghost beside_source_faults = { λ _. refl };

    ghost beside_sink_given = { λ _. refl };

    ghost beside_sink_left = { λ _. refl };

    ghost beside_sink_faults = { λ _. refl };

    ghost same_loans = { λ _. refl };
}

// A door with two such clients. It counts those that came back with a Bye and got just what they were to
// get.
#[derive(Drop)]
struct TwoDrips<'a> {
    one: Script<'a>,
    other: Script<'a>,
    handed: u64,
    returned: u64,
    shut: bool,
    content: u64,
}

impl<'a> TwoDrips<'a> {
    fn new(one: Script<'a>, other: Script<'a>) -> TwoDrips<'a>
        ensures handed { result.handed ≡ 0 }
        ensures returned { result.returned ≡ 0 }
    {
        TwoDrips {
            one,
            other,
            handed: 0,
            returned: 0,
            shut: false,
            content: 0,
        }
    }
}

impl<'a> Door for TwoDrips<'a> {
    type End = Drip<'a>;

    ghost handed = { λ d. d.handed };

    ghost returned = { λ d. d.returned };

    ghost shut = { λ d. d.shut };

    ghost faults = { λ _. 0 };

    fn accept(&mut self) -> Accepted<Drip<'a>> {
        if self.shut || self.handed >= 2 {
            self.shut = true;
            return Accepted::Closed;
        }
        let script = if self.handed == 0 {
            self.one
        } else {
            self.other
        };
        self.handed += 1;
        Accepted::Link(Drip {
            script,
            at: 0,
            got: 0,
            differs: false,
            faults: FaultCount::NONE,
        })
    }

    fn done(&mut self, link: Drip<'a>, end: SessionEnd) {
        self.returned += 1;
        if end == SessionEnd::Bye && !link.differs && link.got == link.script.gets.len() {
            self.content = self.content.saturating_add(1);
        }
    }
}

// A modifier is added, committed, and a Bye.
const COMMITS: &[u8] = b"\x0d\0\0\0\x02\x0a\0\x01\x10\x74\0\0\0\x01\0\xf2\xf1\
    \x01\0\0\0\x08\x01\0\0\0\x0a";

const COMMITTED: &[u8] = b"\x05\0\0\0\x82\0\x10\0\0\x05\0\0\0\x88\x02\0\0\0\x01\0\0\0\x8a";

// The same modifier is added and asked for, a name is added, and there are counts and a Bye.
const ADDS: &[u8] = b"\x0d\0\0\0\x02\x0a\0\x01\x10\x74\0\0\0\x01\0\xf2\xf1\
    \x05\0\0\0\x05\0\x10\0\0\x02\0\0\0\x04\x61\x01\0\0\0\x09\x01\0\0\0\x0a";

const ADDED: &[u8] = b"\x05\0\0\0\x82\0\x10\0\0\
    \x0d\0\0\0\x85\x0a\0\x01\x10\x74\0\0\0\x01\0\xf2\xf1\x05\0\0\0\x84\x01\0\0\0\
    \x0d\0\0\0\x89\x01\0\0\0\0\0\0\0\x01\0\0\0\x01\0\0\0\x8a";

// The one begins once the other's commit has begun to sync, and that sync ends once it has been served. Both
// get what they would get alone.
#[test]
fn a_slow_client_beside_a_commit(rt: HostRuntime) -> Result<(), Fail> {
    let alloc = rt.alloc();
    let keys = RandomState::new(&rt)?;
    let at_once = AtomicBool::new(true);
    let begun = AtomicBool::new(false);
    let committed = AtomicBool::new(false);
    let served = AtomicBool::new(false);
    let commits = Script {
        sends: COMMITS,
        gets: COMMITTED,
        until: &at_once,
        served: &committed,
    };
    let adds = Script {
        sends: ADDS,
        gets: ADDED,
        until: &begun,
        served: &served,
    };
    let words = words_of(alloc, "serve P --listen S --sessions 2 --workers 2")?;
    let mut sink = MemSink::new(alloc, Vec::new(alloc));
    let device = slow_file(alloc, keys, &begun, &served)?;
    let door = TwoDrips::new(commits, adds);
    let (status, _closed, door) = run_server(&rt, alloc, keys, &words, door, &mut sink, device);
    assert_eq!(rt; (status, door.content), (Status::Ok, 2));
    Ok(())
}
