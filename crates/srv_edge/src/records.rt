ghost use Rattle.std.specs.Prelude.{◌≡◌, ◌≤◌, ◌<◌, ◌+◌, ◌-◌, ◌^◌, ◌↔◌, ◌++◌, [], ◌∷◌, Some, length, take, drop, slice_get, IsTrue, IsSome, IfSome, OnOk, OnErr};
ghost use Rattle.srv_edge.specs.Records.{AreEnds, cut_at, joined, start_of};

use std::alloc::{AllocError, Global};
use std::marker::Model;

/// Records in one vector of bytes, with the place where each ends.
#[derive(Drop)]
pub struct RecordList {
    bytes: Vec<u8>,
    ends: Vec<u32>,
}

impl Model for RecordList {
    ghost use Rattle.std.specs.Prelude.{List, ℕ};
    ghost use Rattle.srv_edge.specs.Records.{AreEnds, cut_at};

    ghost Value = { List (List ℕ) };

    ghost view = { λ r. cut_at r.bytes.items 0 r.ends.items };

    ghost invariant = { λ r. AreEnds r.bytes.items r.ends.items };
}

impl RecordList {
    pub fn new(alloc: Global) -> RecordList
        ensures { result ≡ [] }
    {
        RecordList {
            bytes: Vec::new(alloc),
            ends: Vec::new(alloc),
        }
    }

    pub fn push(&mut self, bytes: &[u8]) -> Result<(), AllocError>
        requires records { length self.old + 1 < 2 ^ 32 }
        requires bytes { length (joined self.old) + length bytes.now < 2 ^ 32 }
        ensures ok { OnOk result (self.new ≡ self.old ++ bytes.now ∷ []) }
        ensures err { OnErr result (self.new ≡ self.old) }
    {
        self.ends.reserve(1)?;
        self.bytes.extend_from_slice(bytes)?;
        let end = self.bytes.len() as u32;
        self.ends.push(end).unwrap();
        Ok(())
    }

    pub fn get(&self, position: u32) -> Option<&[u8]>
        ensures some { IsSome result ↔ (position < length self.now) }
        ensures record { IfSome result (λ r. slice_get self.now position ≡ Some r.now) }
    {
        record_at(&self.bytes, &self.ends, position as usize)
    }

    pub fn len(&self) -> u32
        ensures { result ≡ length self.now }
    {
        self.ends.len() as u32
    }

    pub fn is_empty(&self) -> bool
        ensures { IsTrue result ↔ (self.now ≡ []) }
    {
        self.ends.is_empty()
    }

    /// The bytes of all records, one after another.
    pub fn joined(&self) -> &[u8]
        ensures bytes { result.now ≡ joined self.now }
        ensures few { length result.now < 2 ^ 32 }
    {
        &self.bytes
    }
}

// The bytes of the record at a position.
fn record_at<'a>(bytes: &'a [u8], ends: &[u32], position: usize) -> Option<&'a [u8]>
    requires { AreEnds bytes.now ends.now }
    ensures some { IsSome result ↔ (position < length ends.now) }
    ensures record { IfSome result
        (λ r. slice_get (cut_at bytes.now 0 ends.now) position ≡ Some r.now) }
{
    if position >= ends.len() {
        return None;
    }
    let (start, end) = place_of(bytes, ends, position);
    Some(&bytes[start..end])
}

// Where the record at a position starts and ends.
fn place_of(bytes: &[u8], ends: &[u32], position: usize) -> (usize, usize)
    requires ends { AreEnds bytes.now ends.now }
    requires there { position < length ends.now }
    ensures order { result.0 ≤ result.1 }
    ensures within { result.1 ≤ length bytes.now }
    ensures cut { slice_get (cut_at bytes.now 0 ends.now) position
        ≡ Some (take (result.1 - result.0) (drop result.0 bytes.now)) }
{
    let end = ends[position] as usize;
    (start_at(ends, position), end)
}

// The end of the record before, or 0.
fn start_at(ends: &[u32], position: usize) -> usize
    requires { position < length ends.now }
    ensures { result ≡ start_of 0 ends.now position }
{
    if position == 0 {
        0
    } else {
        ends[position - 1] as usize
    }
}
