ghost use Rattle.std.specs.Prelude.{◌≡◌, ◌≤◌, ◌+◌, ◌^◌, length, vec_len, IfOk, OnOk, OnErr};
ghost use Rattle.srv_edge.specs.Disk.{splice};
ghost use Rattle.srv_edge.specs.Kinds.{place_of};

use crate::range::overwrite;
use std::alloc::{AllocError, Global};

/// What a call on a device was.
#[derive(Clone, Copy, Debug, PartialEq, Eq)]
pub enum CallKind {
    Size,
    Read { at: u64 },
    Write { at: u64 },
    Super,
    Sync,
}

/// A call as it is kept: what it was, the bytes that it was to write, and whether it was done.
#[derive(Drop)]
pub struct Call {
    pub kind: CallKind,
    pub bytes: Vec<u8>,
    pub done: bool,
    pub ghost end: { place_of kind + vec_len bytes ≤ 2 ^ 35 },
}

impl Call {
    pub fn new(alloc: Global, kind: CallKind, bytes: &[u8], done: bool) -> Result<Call, AllocError>
        requires { place_of kind + length bytes.now ≤ 2 ^ 35 }
        ensures kind { IfOk result (λ c. c.kind ≡ kind) }
        ensures bytes { IfOk result (λ c. c.bytes.items ≡ bytes.now) }
        ensures done { IfOk result (λ c. c.done ≡ done) }
    {
        Ok(Call {
            kind,
            bytes: bytes.to_vec(alloc)?,
            done,
        })
    }
}

/// A file as it was at first and as it is. It is copied at the first write, so that making one
/// takes no memory.
#[derive(Drop)]
pub struct Contents {
    pub first: Vec<u8>,
    pub later: Option<Vec<u8>>,
}

impl Contents {
    ghost use Rattle.srv_edge.specs.Contents.{shown};

    /// What a read gives.
    pub fn bytes(&self) -> &[u8]
        ensures { result.now ≡ shown self.now }
    {
        match &self.later {
            Some(later) => later,
            None => &self.first,
        }
    }

    /// Writes over what is there, and past the end. Where there is no memory nothing is written.
    pub fn write(&mut self, alloc: Global, at: usize, bytes: &[u8]) -> Result<(), AllocError>
        requires { at + length bytes.now ≤ 2 ^ 35 }
        ensures first { self.new.first ≡ self.old.first }
        ensures ok { OnOk result (shown self.new ≡ splice (shown self.old) at bytes.now) }
        ensures err { OnErr result (shown self.new ≡ shown self.old) }
    {
        let mut later = match self.later.take() {
            Some(later) => later,
            None => self.first.to_vec(alloc)?,
        };
        let done = overwrite(&mut later, at, bytes);
        self.later = Some(later);
        done
    }
}
