ghost use Rattle.std.specs.Prelude.{◌≡◌, ◌≤◌, ◌+◌, ◌∷◌, ◌++◌, ℕ, List, [], length};
ghost use Rattle.srv_edge.specs.declared.code.TheConstants as codes;
ghost use Rattle.srv_edge.specs.declared.piece.TheConstants.{PIECE_BYTES};
ghost use Rattle.srv_edge.specs.Frames.{Frame, frame_bytes, refused, tag_bytes, tag_size, word_bytes};
ghost use Rattle.request_frames.specs.Lists.{part_bytes};
ghost use Rattle.request_frames.specs.Refusals.{refusal_message};

use crate::reply::Part;
use srv_edge::{Head, Piece, Refusal, code, kind, word};

// The bytes of the tag of a frame, of which the four bytes of the number are given.
pub(crate) fn tag_of(head: Head, number: &[u8]) -> &[u8]
    requires { number.now ≡ word_bytes head.tag }
    ensures tag { result.now ≡ tag_bytes head }
    ensures size { length result.now ≡ tag_size head.version }
{
    if head.version == 2 { number } else { &[] }
}

/// Writes a frame into an empty piece: its length, its kind, its tag and its body.
pub fn write_frame(head: Head, kind: u8, body: &[u8], out: &mut Piece)
    requires empty { out.old ≡ [] }
    requires fits { length body.now ≤ 65537 }
    ensures { out.new ≡ frame_bytes (record {
      head = head;
      message = record { kind = kind; body = body.now };
    }) }
{
    let number = word(head.tag);
    let tag = tag_of(head, &number);
    out.push(&word((tag.len() + body.len()) as u32 + 1));
    out.push(&[kind]);
    out.push(tag);
    out.push(body);
}

/// Writes a refusal into an empty piece.
pub fn write_refusal(head: Head, r: &Refusal, out: &mut Piece)
    requires { out.old ≡ [] }
    ensures { out.new ≡ frame_bytes (record { head = head; message = refusal_message r.now }) }
{
    write_numbers(head, &part_of(r), out);
}

/// Writes the refusal of a length, a kind or a body into an empty piece.
pub fn write_bad(head: Head, code: u8, a: u32, out: &mut Piece)
    requires least { codes.BAD_LENGTH ≤ code }
    requires most { code ≤ codes.BAD_BODY }
    requires empty { out.old ≡ [] }
    ensures { out.new ≡ frame_bytes (record { head = head; message = refused code a 0 }) }
{
    write_numbers(head, &Part { code, a, b: 0 }, out);
}

/// The code and the two numbers of a refusal.
pub fn part_of(r: &Refusal) -> Part
    ensures { refused result.code result.a result.b ≡ refusal_message r.now }
{
    let (code, a, b) = match *r {
        Refusal::Malformed { at, what } => (code::MALFORMED, at, u32::from(what)),
        Refusal::NotGiven { space, index } => (code::NOT_GIVEN, u32::from(space), index),
        Refusal::Full { which, needed } => (code::FULL, u32::from(which), needed),
        Refusal::OutOfMemory => (code::OUT_OF_MEMORY, 0, 0),
        Refusal::DiskFault { number } => (code::DISK_FAULT, number, 0),
        Refusal::Underway { number } => (code::UNDERWAY, number, 0),
    };
    Part { code, a, b }
}

fn write_numbers(head: Head, part: &Part, out: &mut Piece)
    requires { out.old ≡ [] }
    ensures { out.new ≡ frame_bytes (record {
      head = head;
      message = refused part.now.code part.now.a part.now.b;
    }) }
{
    write_frame(head, kind::REFUSED, &[], out);
    push_part(part, out);
}

/// Puts bytes behind the body of the frame that stands in a piece.
pub fn push_body(more: &[u8], out: &mut Piece)
    requires some { 4 ≤ length out.old }
    requires fits { length out.old + length more.now ≤ PIECE_BYTES }
    ensures frame { (f : Frame) → out.old ≡ frame_bytes f → out.new ≡ frame_bytes (record {
      head = f.head;
      message = record { kind = f.message.kind; body = f.message.body ++ more.now };
    }) }
    ensures size { length out.new ≡ length out.old + length more.now }
{
    out.push(more);
    take_in(out);
}

/// Takes what was put behind the frame that stands in a piece into its body.
pub fn take_in(out: &mut Piece)
    requires some { 4 ≤ length out.old }
    ensures frame { (f : Frame) (more : List ℕ) → out.old ≡ frame_bytes f ++ more
        → out.new ≡ frame_bytes (record {
          head = f.head;
          message = record { kind = f.message.kind; body = f.message.body ++ more };
        }) }
    ensures size { length out.new ≡ length out.old }
{
    let size = out.bytes().len() as u32 - 4;
    out.set(0, &word(size));
}

/// Puts a part behind the body of the frame that stands in a piece.
pub fn push_part(part: &Part, out: &mut Piece)
    requires some { 4 ≤ length out.old }
    requires fits { length out.old + 9 ≤ PIECE_BYTES }
    ensures { (f : Frame) → out.old ≡ frame_bytes f → out.new ≡ frame_bytes (record {
      head = f.head;
      message = record { kind = f.message.kind; body = f.message.body ++ part_bytes part.now };
    }) }
{
    push_body(&[part.code], out);
    push_body(&word(part.a), out);
    push_body(&word(part.b), out);
}
