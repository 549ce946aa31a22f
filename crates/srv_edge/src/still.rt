ghost use Rattle.std.specs.Prelude.{◌≡◌, ◌≤◌, ◌+◌, ◌^◌, ◌↔◌, length, take, drop, vec_len, vec_capacity, IsOk, IfOk, OnOk};
ghost use Rattle.srv_edge.specs.Disk.{splice, with_head};

use crate::device::Device;
use crate::failed::Failed;
use crate::faults::FaultCount;
use crate::range::overwrite;
use std::alloc::{AllocError, Global};

/// A file in a memory of fixed size, for a server that is to keep nothing. It tells its callers no
/// content, so no clause of its trait speaks of crashes.
///
/// It fails exactly at a write that ends past its room and at a read that ends past the file.
#[derive(Drop)]
pub struct StillDevice {
    bytes: Vec<u8>,
    room: usize,
    faults: FaultCount,
    ghost within: { vec_len bytes ≤ room },
    ghost ready: { room ≤ vec_capacity bytes },
}

impl StillDevice {
    ghost use Rattle.srv_edge.specs.Still.{CallsStill, Leaves, room_of, still_bytes};

    /// It takes the memory of its room first, and no more afterwards.
    pub fn new(alloc: Global, bytes: Vec<u8>, room: u32) -> Result<StillDevice, AllocError>
        requires { vec_len bytes ≤ room }
        ensures room { IfOk result (λ d. room_of d ≡ room) }
        ensures bytes { IfOk result (λ d. still_bytes d ≡ bytes.items) }
        ensures faults { IfOk result (λ d. ⟦<StillDevice as Device>⟧.fault_count d ≡ 0) }
    {
        let mut all = Vec::with_capacity(alloc, room as usize)?;
        all.extend_from_slice(&bytes).unwrap();
        Ok(StillDevice {
            bytes: all,
            room: room as usize,
            faults: FaultCount::NONE,
        })
    }

    // Puts the bytes in their place, where they fit.
    fn put(&mut self, at: usize, bytes: &[u8]) -> Result<(), Failed>
        requires { at + length bytes.now ≤ 2 ^ 35 }
        ensures fits { IsOk result ↔ (at + length bytes.now ≤ room_of self.old) }
        ensures bytes { Leaves result self.old (splice (still_bytes self.old) at bytes.now)
            self.new }
        ensures call { CallsStill self.old result self.new }
    {
        if at + bytes.len() > self.room {
            return Err(self.faults.add());
        }
        overwrite(&mut self.bytes, at, bytes).unwrap();
        Ok(())
    }
}

impl Device for StillDevice {
    ghost use Rattle.srv_edge.specs.Still.{CallsStill, Leaves, room_of, still_bytes};

    ghost fault_count = { λ d. d.faults.count };

    ghost told = { λ d c none. absurd none };

    ghost seen_is_one = { λ d no. Prim.cc };

    ghost counts_now = { λ d t c le none. none };

    ghost only_now = { λ d c none. none };

    fn size(&mut self) -> Result<u64, Failed>
        ensures answer { IfOk result (λ n. n ≡ length (still_bytes self.old)) }
        ensures ok { IsOk result }
        ensures same { self.new ≡ self.old }
    {
        Ok(self.bytes.len() as u64)
    }

    fn read(&mut self, at: u64, out: &mut [u8]) -> Result<(), Failed>
        ensures fits { IsOk result ↔ (at + length out.old ≤ length (still_bytes self.old)) }
        ensures out { OnOk result
            (out.new ≡ take (length out.old) (drop at (still_bytes self.old))) }
        ensures bytes { still_bytes self.new ≡ still_bytes self.old }
        ensures call { CallsStill self.old result self.new }
    {
        let from = at as usize;
        if from > self.bytes.len() || out.len() > self.bytes.len() - from {
            return Err(self.faults.add());
        }
        out.copy_from_slice(&self.bytes[from..from + out.len()]);
        Ok(())
    }

    fn write(&mut self, at: u64, bytes: &[u8]) -> Result<(), Failed>
        requires end { at + length bytes.now ≤ 2 ^ 35 }
        ensures fits { IsOk result ↔ (at + length bytes.now ≤ room_of self.old) }
        ensures bytes { Leaves result self.old (splice (still_bytes self.old) at bytes.now)
            self.new }
        ensures call { CallsStill self.old result self.new }
    {
        self.put(at as usize, bytes)
    }

    fn write_super(&mut self, bytes: &[u8; 56]) -> Result<(), Failed>
        ensures fits { IsOk result ↔ (56 ≤ room_of self.old) }
        ensures bytes { Leaves result self.old (with_head (still_bytes self.old) bytes.now)
            self.new }
        ensures call { CallsStill self.old result self.new }
    {
        self.put(0, bytes)
    }

    fn sync(&mut self) -> Result<(), Failed>
        ensures ok { IsOk result }
        ensures same { self.new ≡ self.old }
    {
        Ok(())
    }

    fn faults(&self) -> u64 {
        self.faults.count
    }
}
