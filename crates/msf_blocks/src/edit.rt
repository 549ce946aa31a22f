ghost use Rattle.std.specs.Prelude.{◌≡◌, ◌≤◌, ◌-◌, ◌++◌, drop, length, take, OnOk};

use std::alloc::AllocError;
use std::marker::Model;

/// Bytes that a stream is to have from a place on, and the length that it is to have then. The bytes
/// are in two runs, of which the second is borrowed, so that a long run is not copied for an edit.
#[derive(Drop)]
pub struct Edit<'a> {
    stream: u32,
    at: u32,
    front: Vec<u8>,
    rest: &'a [u8],
    len: u32,
}

impl<'a> Model for Edit<'a> {
    ghost use Rattle.std.specs.Prelude.{◌++◌};
    ghost use Rattle.msf_blocks.specs.Edit.{StreamEdit};

    ghost Value = { StreamEdit };

    ghost view = { λ e. record {
      stream = e.stream;
      at = e.at;
      bytes = e.front.items ++ e.rest.now;
      len = e.len;
    } };
}

impl<'a> Edit<'a> {
    /// The bytes are those of `front`, and behind them those of `rest`.
    pub fn new(stream: u32, at: u32, front: Vec<u8>, rest: &'a [u8], len: u32) -> Edit<'a>
        ensures { result ≡ record
            { stream = stream; at = at; bytes = front.items ++ rest.now; len = len } }
    {
        Edit {
            stream,
            at,
            front,
            rest,
            len,
        }
    }

    /// The number of the stream.
    pub fn stream(&self) -> u32
        ensures { result ≡ self.now.stream }
    {
        self.stream
    }

    /// Where the bytes begin in the stream.
    pub fn at(&self) -> u32
        ensures { result ≡ self.now.at }
    {
        self.at
    }

    /// How many bytes it gives.
    pub fn bytes_len(&self) -> usize
        ensures { result ≡ length self.now.bytes }
    {
        self.front.len() + self.rest.len()
    }

    /// Puts the bytes from one on and before another behind others.
    pub fn put_bytes(&self, to: &mut Vec<u8>, from: usize, end: usize) -> Result<(), AllocError>
        requires order { from ≤ end }
        requires inside { end ≤ length self.now.bytes }
        ensures { OnOk result
            (to.new.items ≡ to.old.items ++ take (end - from) (drop from self.now.bytes)) }
    {
        let front_from = from.min(self.front.len());
        let front_end = end.min(self.front.len());
        to.extend_from_slice(&self.front[front_from..front_end])?;
        to.extend_from_slice(&self.rest[from - front_from..end - front_end])?;
        Ok(())
    }

    /// The length that the stream has after the edit.
    pub fn len(&self) -> u32
        ensures { result ≡ self.now.len }
    {
        self.len
    }
}
