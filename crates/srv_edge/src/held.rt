ghost use Rattle.std.specs.Prelude.{◌≡◌, ◌≤◌, ◌<◌, ◌+◌, ◌↔◌, ◌++◌, [], length, IfOk, OnErr, IsTrue};

use std::io;
use std::io::Write;
use std::marker::Model;

/// How many bytes are held at the most.
const HELD_BYTES: usize = 16_384;

/// Bytes that were given and are not written to a stream yet.
#[derive(Drop)]
pub(crate) struct Held {
    bytes: [u8; HELD_BYTES],
    to: usize,
}

impl Model for Held {
    ghost use Rattle.std.specs.Prelude.{◌≤◌, List, ℕ, take};

    ghost Value = { List ℕ };

    ghost view = { λ h. take h.to h.bytes };

    ghost invariant = { λ h. h.to ≤ 16384 };
}

impl Held {
    pub fn new() -> Held
        ensures { result ≡ [] }
    {
        Held {
            bytes: [0; HELD_BYTES],
            to: 0,
        }
    }

    pub fn is_empty(&self) -> bool
        ensures { IsTrue result ↔ (self.now ≡ []) }
    {
        self.to == 0
    }

    /// Takes the front of the bytes, and answers how many: behind the others, which are written
    /// first where there is no room. What is longer than all room is written at once, as far as the
    /// stream takes it.
    pub fn put<W: Write>(&mut self, stream: &mut W, bytes: &[u8]) -> io::Result<usize>
        ensures bound { IfOk result (λ n. n ≤ length bytes.now) }

        // Where there is room, the bytes are held, all of them.
        ensures held { length self.old + length bytes.now ≤ 16384
            → self.new ≡ self.old ++ bytes.now }
        ensures all { length self.old + length bytes.now ≤ 16384
            → IfOk result (λ n. n ≡ length bytes.now) }
        ensures err { OnErr result (self.new ≡ []) }
    {
        if bytes.len() > HELD_BYTES - self.to {
            self.write_out(stream)?;
        }
        if bytes.len() > HELD_BYTES {
            return stream.write(bytes);
        }
        self.hold(bytes);
        Ok(bytes.len())
    }

    /// Writes all that is held. Nothing is held behind it, also where the system fails.
    pub fn write_out<W: Write>(&mut self, stream: &mut W) -> io::Result<()>
        ensures { self.new ≡ [] }
    {
        let held = self.to;
        self.to = 0;
        stream.write_all(&self.bytes[..held])
    }

    // Holds bytes for which there is room.
    fn hold(&mut self, bytes: &[u8])
        requires room { length self.old + length bytes.now ≤ 16384 }
        ensures { self.new ≡ self.old ++ bytes.now }
    {
        let to = self.to + bytes.len();
        self.bytes[self.to..to].copy_from_slice(bytes);
        self.to = to;
    }
}
