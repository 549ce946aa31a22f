ghost use Rattle.std.specs.Prelude.{◌≡◌, ◌≤◌, ◌+◌, ◌⊎◌, ◌↔◌, ◌++◌, ℕ, List, [], length, IsTrue};
ghost use Rattle.srv_edge.specs.Exchange.{CallsSource, CameFrom};
ghost use Rattle.srv_edge.specs.Frames.{IsLength, IsVersion};
ghost use Rattle.srv_edge.specs.declared.piece.TheConstants.{PIECE_BYTES};
ghost use Rattle.request_frames.specs.Next.{IsFilled, IsNext};

use srv_edge::limit::FRAME_BYTES;
use srv_edge::{Piece, Source, word_at};

/// What came in the place of the next frame.
#[derive(Clone, Copy, Debug, PartialEq, Eq)]
pub(crate) enum Next {
    Whole,
    Ended,
    CutShort,
    BadLength(u32),
    TooLong,
    ReadFault,
}

// How far a buffer was filled.
#[derive(Clone, Copy, Debug, PartialEq, Eq)]
pub(crate) enum Filled {
    Full,
    NothingLeft,
    AtLimit,
    Failed,
}

/// Reads the four bytes of a length and then as many as it says, into an empty piece.
pub(crate) fn next_frame<S: Source>(
    source: &mut S,
    version: u8,
    limit: u64,
    frame: &mut Piece,
) -> Next
    requires version { IsVersion version }
    requires empty { frame.old ≡ [] }
    ensures next { IsNext result version frame.new limit }
    ensures came { CameFrom S.Source frame.new source.old source.new }
    ensures none_left { (result ≡ Next.Ended) ⊎ (result ≡ Next.CutShort) → IsTrue S.tells
        → S.left source.new ≡ [] }
    ensures calls { CallsSource S.Source (result ≡ Next.ReadFault) source.old source.new }
{
    match fill(source, frame, 4, limit) {
        Filled::Full => {}
        Filled::NothingLeft if frame.is_empty() => return Next::Ended,
        Filled::NothingLeft => return Next::CutShort,
        Filled::AtLimit => return Next::TooLong,
        Filled::Failed => return Next::ReadFault,
    }
    let length = word_at(frame.bytes());
    if !is_length(version, length) {
        return Next::BadLength(length);
    }
    match fill(source, frame, 4 + length as usize, limit) {
        Filled::Full => Next::Whole,
        Filled::NothingLeft => Next::CutShort,
        Filled::AtLimit => Next::TooLong,
        Filled::Failed => Next::ReadFault,
    }
}

// Whether a request has such a length in a version.
fn is_length(version: u8, length: u32) -> bool
    ensures { IsTrue result ↔ IsLength version length }
{
    let tag = if version == 2 { 4 } else { 0 };
    length > tag && length <= FRAME_BYTES + tag
}

// Takes bytes until the piece has as many as are wanted. It never has more than the limit.
fn fill<S: Source>(source: &mut S, piece: &mut Piece, want: usize, limit: u64) -> Filled
    requires has { length piece.old ≤ want }
    requires room { want ≤ PIECE_BYTES }
    requires within { length piece.old ≤ limit }
    ensures filled { IsFilled result (length piece.new) want limit }
    ensures came { (more : List ℕ) × (piece.new ≡ piece.old ++ more)
        × CameFrom S.Source more source.old source.new }
    ensures none_left { result ≡ Filled.NothingLeft → IsTrue S.tells → S.left source.new ≡ [] }
    ensures calls { CallsSource S.Source (result ≡ Filled.Failed) source.old source.new }
{
    while piece.len() < want {
        let has = piece.len();
        let most = limit.min(want as u64) as usize - has;
        if most == 0 {
            return Filled::AtLimit;
        }
        match piece.take_from(source, most) {
            Ok(0) => return Filled::NothingLeft,
            Ok(_) => {}
            Err(_) => return Filled::Failed,
        }
    }
    Filled::Full
}
