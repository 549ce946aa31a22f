ghost use Rattle.std.specs.Prelude.{◌≡◌, ◌≤◌, ◌<◌, ◌+◌, ◌^◌, true, [], length, take, drop, slice_get, vec_len, vec_capacity, refl, IfOk, OnOk};
ghost use Rattle.srv_edge.specs.Disk.{splice, with_head, Torn, Whole, Follows, Among, Only};
ghost use Rattle.srv_edge.specs.Contents.{shown};
ghost use Rattle.srv_edge.specs.Kinds.{place_of, IsStill, IsChange};
ghost use Rattle.srv_edge.specs.Replay.{State, IsImageOf, LeftSince, KeepsAs, after_kind, image_of, is_to_fail, state_of};

use crate::device::Device;
use crate::failed::Failed;
use crate::faults::FaultCount;
use crate::memory_image::replayed;
use crate::memory_record::{Call, CallKind, Contents};
use std::alloc::{AllocError, Global};

// The most calls that are kept.
const MOST_CALLS: usize = 4_294_967_295;

/// A file in memory. It keeps its calls, so that every image that a crash might have left can be
/// made afterwards. It fails at the calls that it is given, counted from 0.
///
/// A call that it finds no memory for, or for which 2^32 - 1 calls were kept before, is not kept,
/// changes nothing but the count of faults, and answers Failed.
#[derive(Drop)]
pub struct MemDevice {
    alloc: Global,
    file: Contents,
    calls: Vec<Call>,
    fail: Vec<u32>,
    faults: FaultCount,
    ghost few: { vec_len calls < 2 ^ 32 },
    ghost shows: { shown file ≡ (state_of file.first.items calls.items).seen },
}

impl MemDevice {
    ghost use Rattle.srv_edge.specs.Recorded.{CountsIn, KeepsCall, LeavesStill, failing_calls, first_file, kinds_of, record_of, seen_by, state_at};

    /// It takes no memory.
    pub fn new(alloc: Global, bytes: Vec<u8>, fail: Vec<u32>) -> MemDevice
        ensures seen { seen_by result ≡ bytes.items }
        ensures first { first_file result ≡ bytes.items }
        ensures no_calls { record_of result ≡ [] }
        ensures fails { failing_calls result ≡ fail.items }
        ensures faults { ⟦<MemDevice as Device>⟧.fault_count result ≡ 0 }
    {
        MemDevice {
            alloc,
            file: Contents {
                first: bytes,
                later: None,
            },
            calls: Vec::new(alloc),
            fail,
            faults: FaultCount::NONE,
        }
    }

    /// How many calls were kept.
    pub fn calls(&self) -> u32
        ensures { result ≡ length (record_of self.now) }
    {
        self.calls.len() as u32
    }

    /// What a call was, counted from 0.
    pub fn kind_at(&self, call: u32) -> Option<CallKind>
        ensures { result ≡ slice_get (kinds_of self.now) call }
    {
        self.calls.get(call as usize).map(|c| c.kind)
    }

    /// One of the images after so many calls: each range that is not settled holds the fill, also
    /// between an old end and a write behind it, and the heads that are not settled are all there
    /// or none.
    pub fn image(&self, calls: u32, fill: u8, last_super: bool) -> Result<Vec<u8>, AllocError>
        requires { calls ≤ length (record_of self.now) }
        ensures text { IfOk result
            (λ v. v.items ≡ image_of (state_at self.now calls) fill last_super) }
        ensures image { IfOk result (λ v. IsImageOf (state_at self.now calls) v.items) }
        ensures left { IfOk result
            (λ v. ⟦<MemDevice as Device>⟧.left_since self.now calls v.items) }
    {
        let calls = &self.calls[..calls as usize];
        replayed(self.alloc, &self.file.first, calls, fill, last_super)
    }

    // Whether the next call is to fail.
    fn is_to_fail(&self) -> bool
        ensures { result ≡ is_to_fail self.now.fail.items (length self.now.calls.items) }
    {
        self.fail.contains(&(self.calls.len() as u32))
    }

    // A call that is to be kept, and room for it. Where there is none it counts a fault.
    fn prepare(&mut self, kind: CallKind, bytes: &[u8], done: bool) -> Result<Call, Failed>
        requires { place_of kind + length bytes.now ≤ 2 ^ 35 }
        ensures kind { IfOk result (λ c. c.kind ≡ kind) }
        ensures bytes { IfOk result (λ c. c.bytes.items ≡ bytes.now) }
        ensures done { IfOk result (λ c. c.done ≡ done) }
        ensures few { OnOk result (vec_len self.new.calls + 1 < 2 ^ 32) }
        ensures room { OnOk result (vec_len self.new.calls < vec_capacity self.new.calls) }
        ensures calls { self.new.calls.items ≡ self.old.calls.items }
        ensures file { self.new.file ≡ self.old.file }
        ensures counted { CountsIn self.old result self.new }
    {
        if self.calls.len() == MOST_CALLS || self.calls.reserve(1).is_err() {
            return Err(self.faults.add());
        }
        match Call::new(self.alloc, kind, bytes, done) {
            Ok(call) => Ok(call),
            Err(_) => Err(self.faults.add()),
        }
    }

    // Keeps a call that leaves what a read gives. One that is not done counts a fault.
    fn keep(&mut self, kind: CallKind, bytes: &[u8], done: bool) -> Result<(), Failed>
        requires end { place_of kind + length bytes.now ≤ 2 ^ 35 }
        requires leaves { (s : State) → (after_kind s kind bytes.now done).seen ≡ s.seen }
        ensures kept { KeepsAs done self.old.calls.items kind bytes.now result
            self.new.calls.items }
        ensures file { self.new.file ≡ self.old.file }
        ensures counted { CountsIn self.old result self.new }
    {
        let call = self.prepare(kind, bytes, done)?;
        self.calls.push(call).unwrap();
        if done { Ok(()) } else { Err(self.faults.add()) }
    }

    // Keeps a call that is no write. It fails where it is to.
    fn note(&mut self, kind: CallKind) -> Result<(), Failed>
        requires { IsStill kind }
        ensures kept { KeepsCall self.old kind [] result self.new }
        ensures still { LeavesStill self.old self.new }
    {
        let done = !self.is_to_fail();
        self.keep(kind, &[], done)
    }

    // Keeps a write of the bytes at their place. It fails where it is to.
    fn change(&mut self, kind: CallKind, at: usize, bytes: &[u8]) -> Result<(), Failed>
        requires change { IsChange kind }
        requires place { at ≡ place_of kind }
        requires end { at + length bytes.now ≤ 2 ^ 35 }
        ensures kept { KeepsCall self.old kind bytes.now result self.new }
        ensures written { OnOk result (seen_by self.new ≡ splice (seen_by self.old) at bytes.now) }
    {
        if self.is_to_fail() {
            return self.keep(kind, bytes, false);
        }
        let call = self.prepare(kind, bytes, true)?;
        if self.file.write(self.alloc, at, bytes).is_err() {
            return Err(self.faults.add());
        }
        self.calls.push(call).unwrap();
        Ok(())
    }
}

impl Device for MemDevice {
    ghost use Rattle.srv_edge.specs.Past.{seen_image, left_now, left_only};
    ghost use Rattle.srv_edge.specs.Recorded.{KeepsCall, LeavesStill, TimeElapses, images_of, seen_by};

    ghost tells = { true };

    ghost seen = { seen_by };

    ghost may_leave = { images_of };

    ghost moment = { λ d. length d.calls.items };

    ghost left_since = { λ d t c. LeftSince d.file.first.items d.calls.items t c };

    ghost fault_count = { λ d. d.faults.count };

    ghost told = { λ d c image. refl };

    ghost seen_is_one = { λ d tells. seen_image d.file.first.items d.calls.items (shown d.file)
        d.shows };

    ghost counts_now = { λ d t c le image. left_now d.file.first.items d.calls.items t c le image };

    ghost only_now = { λ d c left. left_only d.file.first.items d.calls.items c left };

    fn size(&mut self) -> Result<u64, Failed>
        ensures kept { KeepsCall self.old CallKind.Size [] result self.new }
        ensures size { IfOk result (λ n. n ≡ length (seen_by self.old)) }
        ensures still { LeavesStill self.old self.new }
    {
        self.note(CallKind::Size)?;
        Ok(self.file.bytes().len() as u64)
    }

    fn read(&mut self, at: u64, out: &mut [u8]) -> Result<(), Failed>
        requires within { at + length out.old ≤ length (seen_by self.old) }
        ensures kept { KeepsCall self.old (CallKind.Read at) [] result self.new }
        ensures bytes { OnOk result (out.new ≡ take (length out.old) (drop at (seen_by self.old))) }
        ensures still { LeavesStill self.old self.new }
    {
        self.note(CallKind::Read { at })?;
        let from = at as usize;
        out.copy_from_slice(&self.file.bytes()[from..from + out.len()]);
        Ok(())
    }

    fn write(&mut self, at: u64, bytes: &[u8]) -> Result<(), Failed>
        requires end { at + length bytes.now ≤ 2 ^ 35 }
        ensures kept { KeepsCall self.old (CallKind.Write at) bytes.now result self.new }
        ensures written { OnOk result (seen_by self.new ≡ splice (seen_by self.old) at bytes.now) }
        ensures crash { Follows (Torn at (length bytes.now)) (images_of self.old)
            (images_of self.new) }
        ensures time { TimeElapses self.old self.new }
    {
        self.change(CallKind::Write { at }, at as usize, bytes)
    }

    fn write_super(&mut self, bytes: &[u8; 56]) -> Result<(), Failed>
        ensures kept { KeepsCall self.old CallKind.Super bytes.now result self.new }
        ensures written { OnOk result (seen_by self.new ≡ with_head (seen_by self.old) bytes.now) }
        ensures crash { Follows (Whole bytes.now) (images_of self.old) (images_of self.new) }
        ensures time { TimeElapses self.old self.new }
    {
        self.change(CallKind::Super, 0, bytes)
    }

    fn sync(&mut self) -> Result<(), Failed>
        ensures kept { KeepsCall self.old CallKind.Sync [] result self.new }
        ensures durable { OnOk result (Only (seen_by self.old) (images_of self.new)) }
        ensures still { LeavesStill self.old self.new }
    {
        self.note(CallKind::Sync)
    }

    fn faults(&self) -> u64 {
        self.faults.count
    }
}
