ghost use Rattle.std.specs.Prelude.{◌≡◌, ◌<◌, ◌^◌, ◌↔◌, [], length, IsTrue};
ghost use Rattle.std.specs.Option.{option_map};
ghost use Rattle.stream_directory.specs.Directory.{absent_size, stream_at};

use std::marker::Model;

/// The number that stands for the size of an absent stream.
pub const ABSENT_SIZE: u32 = 0xffff_ffff;

/// A stream that is there: its size in bytes, and the blocks that hold them.
#[derive(Drop)]
pub struct Stream {
    size: u32,
    blocks: Vec<u32>,
}

impl Model for Stream {
    ghost use Rattle.std.specs.Prelude.{◌<◌};
    ghost use Rattle.stream_directory.specs.Directory.{StreamBlocks, absent_size};

    ghost Value = { StreamBlocks };

    ghost view = { λ s. record { size = s.size; blocks = s.blocks.items } };

    ghost invariant = { λ s. s.size < absent_size };
}

impl Stream {
    pub fn new(size: u32, blocks: Vec<u32>) -> Stream
        requires { size < absent_size }
        ensures { result ≡ record { size = size; blocks = blocks.items } }
    {
        Stream { size, blocks }
    }

    pub fn size(&self) -> u32
        ensures size { result ≡ self.now.size }
        ensures present { result < absent_size }
    {
        self.size
    }

    pub fn blocks(&self) -> &[u32]
        ensures { result.now ≡ self.now.blocks }
    {
        &self.blocks
    }
}

/// The streams of a file, each of which may be absent.
#[derive(Drop)]
pub struct Directory {
    streams: Vec<Option<Stream>>,
}

impl Model for Directory {
    ghost use Rattle.std.specs.Prelude.{◌<◌, ◌^◌, List, Option, length};
    ghost use Rattle.stream_directory.specs.Directory.{StreamBlocks};

    ghost Value = { List (Option StreamBlocks) };

    ghost view = { λ d. d.streams.items };

    ghost invariant = { λ d. length d.streams.items < 2 ^ 32 };
}

impl Directory {
    pub fn new(streams: Vec<Option<Stream>>) -> Directory
        requires { length streams.items < 2 ^ 32 }
        ensures { result ≡ streams.items }
    {
        Directory { streams }
    }

    /// How many streams there are, the absent ones counted.
    pub fn len(&self) -> u32
        ensures { result ≡ length self.now }
    {
        self.streams.len() as u32
    }

    pub fn is_empty(&self) -> bool
        ensures { IsTrue result ↔ (self.now ≡ []) }
    {
        self.streams.is_empty()
    }

    /// All streams in their order.
    pub fn streams(&self) -> &[Option<Stream>]
        ensures { result.now ≡ self.now }
    {
        &self.streams
    }

    /// The size of a stream, if there is one of this number.
    pub fn size(&self, stream: u32) -> Option<u32>
        ensures { result ≡ option_map (λ s. s.size) (stream_at self.now stream) }
    {
        match self.streams.get(stream as usize) {
            Some(Some(s)) => Some(s.size()),
            _ => None,
        }
    }
}
