ghost use Rattle.std.specs.Prelude.{◌≡◌, ◌≢◌, ◌≤◌, ◌<◌, ◌+◌, ◌↔◌, ◌++◌, [], length, min, take, IfOk, IsOk, OnErr, IsTrue};

use std::io;
use std::io::Read;
use std::marker::Model;

/// How many bytes are read ahead at the most.
const AHEAD_BYTES: usize = 16_384;

/// Bytes that were read from a stream and not asked for yet.
#[derive(Drop)]
pub(crate) struct Ahead {
    bytes: [u8; AHEAD_BYTES],
    from: usize,
    to: usize,
}

impl Model for Ahead {
    ghost use Rattle.std.specs.Prelude.{◌≤◌, List, ℕ, drop, take};

    ghost Value = { List ℕ };

    ghost view = { λ a. drop a.from (take a.to a.bytes) };

    ghost invariant = { λ a. (a.from ≤ a.to) × (a.to ≤ 16384) };
}

impl Ahead {
    pub fn new() -> Ahead
        ensures { result ≡ [] }
    {
        Ahead {
            bytes: [0; AHEAD_BYTES],
            from: 0,
            to: 0,
        }
    }

    /// Fills the front of the slice, and answers how many bytes: with what was read before, and only
    /// where nothing is left of that with what one more read gives. 0 is the end of the stream.
    pub fn read<R: Read>(&mut self, stream: &mut R, into: &mut [u8]) -> io::Result<usize>
        requires { 0 < length into.old }
        ensures bound { IfOk result (λ n. n ≤ length into.old) }

        // Where bytes are ahead, some of them are given, from the front, and the others stay.
        ensures ok { self.old ≢ [] → IsOk result }
        ensures some { self.old ≢ [] → IfOk result (λ n. 0 < n) }
        ensures in_order { self.old ≢ []
            → IfOk result (λ n. take n into.new ++ self.new ≡ self.old) }
        ensures err { OnErr result (self.new ≡ []) }
    {
        if self.is_empty() {
            if into.len() >= AHEAD_BYTES {
                return stream.read(into);
            }
            self.fill(stream)?;
        }
        Ok(self.give(into))
    }

    pub fn is_empty(&self) -> bool
        ensures { IsTrue result ↔ (self.now ≡ []) }
    {
        self.from == self.to
    }

    // Reads once.
    fn fill<R: Read>(&mut self, stream: &mut R) -> io::Result<()>
        requires { self.old ≡ [] }
        ensures { OnErr result (self.new ≡ []) }
    {
        self.from = 0;
        self.to = 0;
        self.to = stream.read(&mut self.bytes)?;
        Ok(())
    }

    // Gives what is there, as far as the slice has room.
    fn give(&mut self, into: &mut [u8]) -> usize
        ensures count { result ≡ min (length into.old) (length self.old) }
        ensures given { take result into.new ++ self.new ≡ self.old }
    {
        let n = into.len().min(self.to - self.from);
        into[..n].copy_from_slice(&self.bytes[self.from..self.from + n]);
        self.from += n;
        n
    }
}
