ghost use Rattle.std.specs.Prelude.{◌≡◌, ◌≤◌, ◌+◌, ◌^◌, if◌then◌else◌, length, replicate, IfOk, OnOk};
ghost use Rattle.srv_edge.specs.Disk.{splice, splice_with, with_head};
ghost use Rattle.srv_edge.specs.Replay.{State, after_call, image_of, state_of};

use crate::memory_record::{Call, CallKind};
use crate::range::{fill_range, overwrite};
use std::alloc::{AllocError, Global};

// What a read gives and one image, from a point of the record on.
#[derive(Drop)]
struct Replay {
    seen: Vec<u8>,
    image: Vec<u8>,
}

impl Replay {
    ghost use Rattle.srv_edge.specs.Images.{ShowsState};

    fn new(alloc: Global, first: &[u8]) -> Result<Replay, AllocError>
        ensures seen { IfOk result (λ r. r.seen.items ≡ first.now) }
        ensures image { IfOk result (λ r. r.image.items ≡ first.now) }
    {
        Ok(Replay {
            seen: first.to_vec(alloc)?,
            image: first.to_vec(alloc)?,
        })
    }

    // One call more.
    fn step(&mut self, call: &Call, fill: u8, last_super: bool) -> Result<(), AllocError>
        ensures { (s : State) → ShowsState self.old s fill last_super
            → OnOk result (ShowsState self.new (after_call s call.now) fill last_super) }
    {
        match call.kind {
            CallKind::Size | CallKind::Read { .. } => Ok(()),
            CallKind::Write { at } => self.write(at as usize, &call.bytes, call.done, fill),
            CallKind::Super => self.head(&call.bytes, call.done, last_super),
            CallKind::Sync => self.sync(call.done),
        }
    }

    fn write(&mut self, at: usize, bytes: &[u8], done: bool, fill: u8) -> Result<(), AllocError>
        requires { at + length bytes.now ≤ 2 ^ 35 }
        ensures seen { OnOk result
            (self.new.seen.items
            ≡ (if done then splice self.old.seen.items at bytes.now else self.old.seen.items)) }
        ensures image { OnOk result
            (self.new.image.items
            ≡ splice_with fill self.old.image.items at (replicate (length bytes.now) fill)) }
    {
        if done {
            overwrite(&mut self.seen, at, bytes)?;
        }
        fill_range(&mut self.image, at, bytes.len(), fill)
    }

    fn head(&mut self, bytes: &[u8], done: bool, last_super: bool) -> Result<(), AllocError>
        requires { length bytes.now ≤ 2 ^ 35 }
        ensures seen { OnOk result
            (self.new.seen.items
            ≡ (if done then with_head self.old.seen.items bytes.now else self.old.seen.items)) }
        ensures image { OnOk result
            (self.new.image.items
            ≡ (if last_super then with_head self.old.image.items bytes.now else
            self.old.image.items)) }
    {
        put_head(&mut self.seen, bytes, done)?;
        put_head(&mut self.image, bytes, last_super)
    }

    fn sync(&mut self, done: bool) -> Result<(), AllocError>
        ensures seen { self.new.seen.items ≡ self.old.seen.items }
        ensures image { OnOk result
            (self.new.image.items
            ≡ (if done then self.old.seen.items else self.old.image.items)) }
    {
        if done {
            self.image.clear();
            self.image.extend_from_slice(&self.seen)?;
        }
        Ok(())
    }
}

// Puts a head over the first bytes of a file, if it is to be there.
fn put_head(file: &mut Vec<u8>, head: &[u8], there: bool) -> Result<(), AllocError>
    requires { length head.now ≤ 2 ^ 35 }
    ensures { OnOk result
        (file.new.items ≡ (if there then with_head file.old.items head.now else file.old.items)) }
{
    if there {
        overwrite(file, 0, head)?;
    }
    Ok(())
}

// The image after these calls where each range that is not settled holds the fill, also between an
// old end and a write behind it, and the heads that are not settled are all there or none.
pub fn replayed(
    alloc: Global,
    first: &[u8],
    calls: &[Call],
    fill: u8,
    last_super: bool,
) -> Result<Vec<u8>, AllocError>
    ensures { IfOk result (λ v. v.items ≡ image_of (state_of first.now calls.now) fill last_super) }
{
    let mut replay = Replay::new(alloc, first)?;
    for call in calls {
        replay.step(call, fill, last_super)?;
    }
    Ok(replay.image)
}
