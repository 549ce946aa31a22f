ghost use Rattle.std.specs.Prelude.{◌≡◌, ◌≤◌, ◌<◌, ◌+◌, ◌++◌, ◌-◌, ◌^◌, true, [], length, min, take, drop, vec_len, refl};
ghost use Rattle.srv_edge.specs.Replay.{is_to_fail};
ghost use Rattle.srv_edge.specs.Stream.{nothing_told};

use crate::failed::Failed;
use crate::faults::FaultCount;
use crate::link::Link;
use crate::sink::Sink;
use crate::source::Source;
use std::alloc::Global;

/// Which calls are to fail, counted from 0, and how many were made. That number stands still at its
/// last value.
#[derive(Drop)]
pub struct Failing {
    pub calls: Vec<u32>,
    pub made: u32,
}

impl Failing {
    /// Before the first call.
    pub fn new(calls: Vec<u32>) -> Failing
        ensures calls { result.calls ≡ calls }
        ensures made { result.made ≡ 0 }
    {
        Failing { calls, made: 0 }
    }

    /// Makes a call, and answers whether it is to fail.
    pub fn next(&mut self) -> bool
        ensures fails { result ≡ is_to_fail self.old.calls.items self.old.made }
        ensures calls { self.new.calls ≡ self.old.calls }
        ensures made { self.new.made ≡ min (self.old.made + 1) (2 ^ 32 - 1) }
    {
        let fails = self.calls.contains(&self.made);
        self.made = self.made.saturating_add(1);
        fails
    }
}

/// Bytes in memory, at most so many a call. It fails at the calls that it is given, counted from 0.
#[derive(Drop)]
pub struct MemSource {
    bytes: Vec<u8>,
    at: usize,
    piece: usize,
    failing: Failing,
    faults: FaultCount,
    ghost within: { at ≤ vec_len bytes },
    ghost some: { 0 < piece },
}

impl MemSource {
    ghost use Rattle.srv_edge.specs.Memory.{IsNewSource};

    pub fn new(bytes: Vec<u8>, piece: usize, fail: Vec<u32>) -> MemSource
        requires { 0 < piece }
        ensures { IsNewSource bytes.items piece fail.items result }
    {
        MemSource {
            bytes,
            at: 0,
            piece,
            failing: Failing::new(fail),
            faults: FaultCount::NONE,
        }
    }
}

impl Source for MemSource {
    ghost use Rattle.srv_edge.specs.Memory.{IsTake, given_by, left_in};

    ghost tells = { true };

    ghost given = { given_by };

    ghost left = { left_in };

    ghost faults = { λ s. s.faults.count };

    fn take(&mut self, into: &mut [u8]) -> Result<usize, Failed>
        requires { 0 < length into.old }
        ensures { IsTake (length into.old) self.old into.new result self.new }
    {
        if self.failing.next() {
            return Err(self.faults.add());
        }
        let n = copy_front(&self.bytes[self.at..], into, self.piece);
        self.at += n;
        Ok(n)
    }
}

// Copies the front of the bytes to the front of the slice, at most so many.
fn copy_front(bytes: &[u8], into: &mut [u8], most: usize) -> usize
    ensures count { result ≡ min most (min (length bytes.now) (length into.old)) }
    ensures copied { into.new ≡ take result bytes.now ++ drop result into.old }
{
    let n = most.min(bytes.len().min(into.len()));
    into[..n].copy_from_slice(&bytes[..n]);
    n
}

/// Keeps what it takes in memory, all of it in each call. It fails at the calls that it is given,
/// counted from 0, and where memory runs out.
#[derive(Drop)]
pub struct MemSink {
    taken: Vec<u8>,
    failing: Failing,
    faults: FaultCount,
}

impl MemSink {
    ghost use Rattle.srv_edge.specs.Memory.{IsNewSink, taken_by};

    pub fn new(alloc: Global, fail: Vec<u32>) -> MemSink
        ensures { IsNewSink fail.items result }
    {
        MemSink {
            taken: Vec::new(alloc),
            failing: Failing::new(fail),
            faults: FaultCount::NONE,
        }
    }

    /// What it has taken.
    pub fn taken(&self) -> &[u8]
        ensures { result.now ≡ taken_by self.now }
    {
        &self.taken
    }
}

impl Sink for MemSink {
    ghost use Rattle.srv_edge.specs.Memory.{IsGive, taken_by};

    ghost tells = { true };

    ghost taken = { taken_by };

    ghost faults = { λ s. s.faults.count };

    fn give(&mut self, bytes: &[u8]) -> Result<usize, Failed>
        ensures { IsGive self.old bytes.now result self.new }
    {
        if self.failing.next() || self.taken.extend_from_slice(bytes).is_err() {
            return Err(self.faults.add());
        }
        Ok(bytes.len())
    }
}

/// A link in memory.
#[derive(Drop)]
pub struct MemLink {
    pub source: MemSource,
    pub sink: MemSink,
}

impl Source for MemLink {
    ghost tells = { true };

    ghost given = { λ l. ⟦<MemSource as Source>⟧.given l.source };

    ghost left = { λ l. ⟦<MemSource as Source>⟧.left l.source };

    ghost faults = { λ l. ⟦<MemSource as Source>⟧.faults l.source };

    ghost beside = { λ l. record {
      bytes = ⟦<MemSink as Sink>⟧.taken l.sink;
      rest = [];
      faults = ⟦<MemSink as Sink>⟧.faults l.sink;
    } };

    fn take(&mut self, into: &mut [u8]) -> Result<usize, Failed> {
        self.source.take(into)
    }
}

impl Sink for MemLink {
    ghost tells = { true };

    ghost taken = { λ l. ⟦<MemSink as Sink>⟧.taken l.sink };

    ghost faults = { λ l. ⟦<MemSink as Sink>⟧.faults l.sink };

    ghost beside = { λ l. record {
      bytes = ⟦<MemSource as Source>⟧.given l.source;
      rest = ⟦<MemSource as Source>⟧.left l.source;
      faults = ⟦<MemSource as Source>⟧.faults l.source;
    } };

    fn give(&mut self, bytes: &[u8]) -> Result<usize, Failed> {
        self.sink.give(bytes)
    }
}

impl Link for MemLink {
    ghost beside_source_taken = { λ _. refl };

    ghost beside_source_faults = { λ _. refl };

    ghost beside_sink_given = { λ _. refl };

    ghost beside_sink_left = { λ _. refl };

    ghost beside_sink_faults = { λ _. refl };

    ghost same_loans = { λ _. refl };
}
