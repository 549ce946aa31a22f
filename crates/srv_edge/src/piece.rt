ghost use Rattle.std.specs.Prelude.{◌≡◌, ◌≤◌, ◌<◌, ◌+◌, ◌++◌, ◌↔◌, [], length, take, drop, IsTrue, IfOk, IsErr};
ghost use Rattle.srv_edge.specs.Exchange.{CallsSource};
ghost use Rattle.srv_edge.specs.Stream.{Fills};

use crate::failed::Failed;
use crate::source::Source;
use std::alloc::{AllocError, Global};
use std::marker::Model;

/// The most bytes that a [`Piece`] holds: a frame of the longest reply with its length and its tag.
pub const PIECE_BYTES: usize = 65_546;

/// A buffer of at most [`PIECE_BYTES`] bytes. Its memory is there from the start.
#[derive(Drop)]
pub struct Piece {
    all: Vec<u8>,
    len: usize,
}

impl Model for Piece {
    ghost use Rattle.std.specs.Prelude.{◌≡◌, ◌≤◌, List, ℕ, take, vec_len};

    ghost Value = { List ℕ };

    ghost view = { λ p. take p.len p.all.items };

    ghost invariant = { λ p. (p.len ≤ 65546) × (vec_len p.all ≡ 65546) };
}

impl Piece {
    pub fn new(alloc: Global) -> Result<Piece, AllocError>
        ensures { IfOk result (λ p. p ≡ []) }
    {
        Ok(Piece {
            all: vec![in alloc; 0; PIECE_BYTES]?,
            len: 0,
        })
    }

    pub fn clear(&mut self)
        ensures { self.new ≡ [] }
    {
        self.len = 0;
    }

    pub fn push(&mut self, bytes: &[u8])
        requires { length self.old + length bytes.now ≤ PIECE_BYTES }
        ensures { self.new ≡ self.old ++ bytes.now }
    {
        let end = self.len + bytes.len();
        self.all[self.len..end].copy_from_slice(bytes);
        self.len = end;
    }

    /// Overwrites the bytes from a place on.
    pub fn set(&mut self, at: usize, bytes: &[u8])
        requires { at + length bytes.now ≤ length self.old }
        ensures { self.new
            ≡ take at self.old ++ bytes.now ++ drop (at + length bytes.now) self.old }
    {
        self.all[at..at + bytes.len()].copy_from_slice(bytes);
    }

    pub fn bytes(&self) -> &[u8]
        ensures bytes { result.now ≡ self.now }
        ensures bound { length self.now ≤ PIECE_BYTES }
    {
        &self.all[..self.len]
    }

    pub fn len(&self) -> usize
        ensures { result ≡ length self.now }
    {
        self.len
    }

    pub fn is_empty(&self) -> bool
        ensures { IsTrue result ↔ (self.now ≡ []) }
    {
        self.len == 0
    }

    /// Asks a source for at most so many bytes, and puts what comes behind the others.
    pub fn take_from<S: Source>(&mut self, source: &mut S, most: usize) -> Result<usize, Failed>
        requires some { 0 < most }
        requires room { length self.old + most ≤ PIECE_BYTES }
        ensures bound { IfOk result (λ n. n ≤ most) }
        ensures fills { Fills S.tells result self.old self.new
            (S.given source.old) (S.left source.old) (S.given source.new) (S.left source.new) }
        ensures calls { CallsSource S.Source (IsErr result) source.old source.new }
    {
        let end = self.len + most;
        let n = source.take(&mut self.all[self.len..end])?;
        self.len += n;
        Ok(n)
    }
}

/// Bytes that are kept as they came: a record, a name, the content of a stream.
#[derive(Drop)]
pub struct Text {
    all: Vec<u8>,
}

impl Model for Text {
    ghost use Rattle.std.specs.Prelude.{List, ℕ};

    ghost Value = { List ℕ };

    ghost view = { λ t. t.all.items };
}

impl Text {
    pub fn new(bytes: Vec<u8>) -> Text
        ensures { result ≡ bytes.items }
    {
        Text { all: bytes }
    }

    pub fn bytes(&self) -> &[u8]
        ensures { result.now ≡ self.now }
    {
        &self.all
    }
}

/// The two buffers of a session. What they hold before it does not matter.
#[derive(Drop)]
pub struct Room {
    pub frame: Piece,
    pub reply: Piece,
}

impl Room {
    pub fn new(alloc: Global) -> Result<Room, AllocError>
        ensures frame { IfOk result (λ r. r.frame ≡ []) }
        ensures reply { IfOk result (λ r. r.reply ≡ []) }
    {
        Ok(Room {
            frame: Piece::new(alloc)?,
            reply: Piece::new(alloc)?,
        })
    }
}
