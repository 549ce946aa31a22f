ghost use Rattle.std.specs.Prelude.{◌≡◌, ◌≤◌, ◌⊎◌, ◌++◌, ℕ, List, [], length};
ghost use Rattle.srv_edge.specs.Count.{Rose};
ghost use Rattle.srv_edge.specs.Exchange.{CallsSink, WentTo};
ghost use Rattle.srv_edge.specs.Finished.{FinishesFresh};
ghost use Rattle.srv_edge.specs.Frames.{IsFrame, IsLength, IsVersion, frame_bytes, refused_length, spoken, word_bytes};
ghost use Rattle.srv_edge.specs.declared.limit.TheConstants.{SESSION_BYTES};
ghost use Rattle.request_frames.specs.Requests.{asked, frame_in};
ghost use Rattle.request_frames.specs.Session.{Sends};
ghost use Rattle.request_frames.specs.Serving.{EndsByInput, PutsAnswer, SendsTurn, Serves, TakesTurn};
ghost use Rattle.request_frames.specs.Next.{Follows, IsAnswered, IsWholeFrame, turn_behind};

use crate::desk::Desk;
use crate::next::{Next, next_frame};
use crate::read::{behind, body_of, head_of, read_request};
use crate::request::{BadFrame, Request};
use crate::write::write_bad;
use srv_edge::{Head, Link, Piece, Room, SessionEnd, code, give_all};

/// What follows one turn of a session.
#[derive(Clone, Copy, Debug, PartialEq, Eq)]
pub(crate) enum Turn {
    /// Frames of this version.
    GoesOn(u8),
    Ends(SessionEnd),
}

// The version that is spoken where this one is asked for.
fn spoken_version(asked: u16) -> u8
    ensures { result ≡ spoken asked }
{
    if asked >= 2 { 2 } else { asked as u8 }
}

// What follows a request of a version.
fn next_turn(version: u8, request: &Request) -> Turn
    ensures { result ≡ turn_behind version (asked request.now) }
{
    match *request {
        Request::Hello(asked) => Turn::GoesOn(spoken_version(asked)),
        Request::Bye => Turn::Ends(SessionEnd::Bye),
        _ => Turn::GoesOn(version),
    }
}

// Puts the reply to a frame, whose kind, tag and body are given, into an empty piece.
fn answer_frame<K: Desk>(
    ground: &K::Ground,
    desk: &mut K,
    version: u8,
    frame: &[u8],
    out: &mut Piece,
) -> Turn
    requires version { IsVersion version }
    requires is_length { IsLength version (length frame.now) }
    requires empty { out.old ≡ [] }
    ensures is_frame { IsFrame version (frame_in version frame.now) }
    ensures spelled { frame_bytes (frame_in version frame.now)
        ≡ word_bytes (length frame.now) ++ frame.now }
    ensures reply { PutsAnswer K.Desk desk.old (frame_in version frame.now) out.new desk.new }
    ensures follows { Follows result (frame_in version frame.now) }
{
    let head = head_of(version, frame);
    match read_request(version, frame) {
        Ok(request) => {
            desk.answer(ground, head, &request, out);
            next_turn(version, &request)
        }
        Err(BadFrame::Kind) => {
            write_bad(head, code::BAD_KIND, u32::from(frame[0]), out);
            Turn::GoesOn(version)
        }
        Err(BadFrame::Body) => {
            let size = body_of(version, frame).len() as u32;
            write_bad(head, code::BAD_BODY, size, out);
            Turn::GoesOn(version)
        }
    }
}

// The kind, the tag and the body of the frame that stands in a piece, behind its length.
fn behind_length(version: u8, frame: &Piece) -> &[u8]
    requires { IsWholeFrame version frame.now }
    ensures is_length { IsLength version (length result.now) }
    ensures spelled { frame.now ≡ word_bytes (length result.now) ++ result.now }
{
    behind(frame.bytes(), 4)
}

// Answers the frame that stands in a piece, and sends the reply.
fn send_answer<L: Link, K: Desk>(
    ground: &K::Ground,
    link: &mut L,
    desk: &mut K,
    version: u8,
    limit: u64,
    frame: &Piece,
    reply: &mut Piece,
) -> Turn
    requires version { IsVersion version }
    requires whole { IsWholeFrame version frame.now }
    requires within { length frame.now ≤ limit }
    requires empty { reply.old ≡ [] }
    ensures sent { SendsTurn L.Sink K.Desk version limit frame.now
        link.old link.new desk.old desk.new result }
    ensures ends { IsAnswered result }
    ensures calls { CallsSink L.Sink (result ≡ Turn.Ends SessionEnd.WriteFault)
        link.old link.new }
{
    let turn = answer_frame(ground, desk, version, behind_length(version, frame), reply);
    match give_all(link, reply.bytes()) {
        Err(_) => Turn::Ends(SessionEnd::WriteFault),
        Ok(()) => turn,
    }
}

// Refuses the length that stands in the place of a frame.
fn send_refusal<L: Link>(link: &mut L, version: u8, length: u32, reply: &mut Piece) -> SessionEnd
    requires { reply.old ≡ [] }
    ensures sent { (sent : List ℕ)
        × Sends result sent (frame_bytes (refused_length version length))
        × WentTo L.Sink sent link.old link.new }
    ensures ends { (result ≡ SessionEnd.WriteFault) ⊎ (result ≡ SessionEnd.BadLength) }
    ensures calls { CallsSink L.Sink (result ≡ SessionEnd.WriteFault) link.old link.new }
{
    write_bad(Head { version, tag: 0 }, code::BAD_LENGTH, length, reply);
    match give_all(link, reply.bytes()) {
        Err(_) => SessionEnd::WriteFault,
        Ok(()) => SessionEnd::BadLength,
    }
}

// Reads what comes in the place of the next frame, and answers it.
fn serve_next<L: Link, K: Desk>(
    ground: &K::Ground,
    link: &mut L,
    desk: &mut K,
    version: u8,
    limit: u64,
    room: &mut Room,
) -> Turn
    requires { IsVersion version }
    ensures { TakesTurn L.Source L.Sink K.Desk version limit room.new.frame
        link.old link.new desk.old desk.new result }
{
    room.frame.clear();
    room.reply.clear();
    match next_frame(link, version, limit, &mut room.frame) {
        Next::Whole => send_answer(
            ground,
            link,
            desk,
            version,
            limit,
            &room.frame,
            &mut room.reply,
        ),
        Next::BadLength(length) => {
            Turn::Ends(send_refusal(link, version, length, &mut room.reply))
        }
        Next::Ended => Turn::Ends(SessionEnd::Ended),
        Next::CutShort => Turn::Ends(SessionEnd::CutShort),
        Next::TooLong => Turn::Ends(SessionEnd::TooLong),
        Next::ReadFault => Turn::Ends(SessionEnd::ReadFault),
    }
}

/// Serves a link until its end: reads the four bytes of a length and as many as it says, has the
/// desk answer, sends the reply, and so on. It begins in version 1, and a Hello sets the version of
/// the frames behind it. It asks a source for the rest of a length or a frame, of which any front
/// may come, and for no more than `limit` bytes in all. What the room holds does not matter.
pub fn serve_link<L: Link, K: Desk>(
    ground: &K::Ground,
    link: &mut L,
    desk: &mut K,
    limit: u64,
    room: &mut Room,
) -> SessionEnd
    ensures serves { Serves L.Source L.Sink K.Desk limit
        link.old link.new desk.old desk.new result }
    // Where nothing fails, the input alone says how it ends.
    ensures end { EndsByInput L.Source.tells limit (L.left link.old)
        (Rose (L.Source.faults link.old) (L.Source.faults link.new))
        (Rose (L.Sink.faults link.old) (L.Sink.faults link.new)) result }
    // A fresh link is finished, where the limit is that of a server.
    ensures finished { limit ≡ SESSION_BYTES
        → FinishesFresh L.Source L.Sink link.old result link.new }
{
    let mut version = 1;
    let mut budget = limit;
    'frames: loop {
        match serve_next(ground, link, desk, version, budget, room) {
            Turn::Ends(end) => return end,
            Turn::GoesOn(next) => {
                version = next;
                budget -= room.frame.len() as u64;
            }
        }
    }
}
