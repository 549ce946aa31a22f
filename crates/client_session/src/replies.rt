ghost use Rattle.std.specs.Prelude.{◌≡◌, ◌≤◌, ◌<◌, ◌+◌, ◌++◌, [], length};
ghost use Rattle.std.specs.Option.{ForSome, option_copied};
ghost use Rattle.srv_edge.specs.declared.kind.TheConstants as kinds;
ghost use Rattle.srv_edge.specs.Frames.{frame_bytes, half_bytes, spoken, word_bytes};
ghost use Rattle.srv_edge.specs.declared.space.TheConstants as spaces;
ghost use Rattle.request_frames.specs.Lists.{part_bytes};
ghost use Rattle.client_session.specs.Tables.{bytes_reply, index_reply, part_of};

use request_frames::{Head, Part, push_body, write_frame, write_refusal};
use srv_edge::{Piece, Refusal, half, kind, space, word};

/// Replies to a request of a kind with a body.
pub(crate) fn write_reply(head: Head, request: u8, body: &[u8], out: &mut Piece)
    requires kind { request < kinds.REPLY }
    requires empty { out.old ≡ [] }
    requires fits { length body.now ≤ 65537 }
    ensures { out.new ≡ frame_bytes (record {
      head = head;
      message = record { kind = request + kinds.REPLY; body = body.now };
    }) }
{
    write_frame(head, request + kind::REPLY, body, out);
}

/// Replies to a Hello with the version that is spoken from now on.
pub(crate) fn write_hello(head: Head, version: u16, out: &mut Piece)
    requires { out.old ≡ [] }
    ensures { out.new ≡ frame_bytes (record {
      head = head;
      message = record {
        kind = kinds.HELLO + kinds.REPLY;
        body = half_bytes (spoken version);
      };
    }) }
{
    let spoken = if version >= 2 { 2 } else { version };
    write_reply(head, kind::HELLO, &half(spoken), out);
}

/// Replies with an index or an offset.
pub(crate) fn write_index(head: Head, request: u8, answer: Result<u32, Refusal>, out: &mut Piece)
    requires kind { request < kinds.REPLY }
    requires empty { out.old ≡ [] }
    ensures { out.new ≡ frame_bytes (record {
      head = head;
      message = index_reply (request + kinds.REPLY) answer;
    }) }
{
    match answer {
        Ok(n) => write_reply(head, request, &word(n), out),
        Err(refusal) => write_refusal(head, &refusal, out),
    }
}

/// Replies with a record or a name.
pub(crate) fn write_bytes(
    head: Head,
    request: u8,
    found: Option<&[u8]>,
    refusal: Refusal,
    out: &mut Piece,
)
    requires kind { request < kinds.REPLY }
    requires empty { out.old ≡ [] }
    requires fits { ForSome found (λ bytes. length bytes.now ≤ 65537) }
    ensures { out.new ≡ frame_bytes (record {
      head = head;
      message = bytes_reply (request + kinds.REPLY) (option_copied found.entry) refusal;
    }) }
{
    match found {
        Some(bytes) => write_reply(head, request, bytes, out),
        None => write_refusal(head, &refusal, out),
    }
}

/// Replies with the counts of types, items and names.
pub(crate) fn write_counts(head: Head, types: u32, items: u32, names: u32, out: &mut Piece)
    requires { out.old ≡ [] }
    ensures { out.new ≡ frame_bytes (record {
      head = head;
      message = record {
        kind = kinds.COUNTS + kinds.REPLY;
        body = word_bytes types ++ word_bytes items ++ word_bytes names;
      };
    }) }
{
    write_reply(head, kind::COUNTS, &[], out);
    push_body(&word(types), out);
    push_body(&word(items), out);
    push_body(&word(names), out);
}

/// The part of a list's reply for an add.
pub(crate) fn part_for(answer: Result<u32, Refusal>) -> Part
    ensures { part_bytes result ≡ part_of answer }
{
    match answer {
        Ok(index) => Part {
            code: 0,
            a: index,
            b: 0,
        },
        Err(refusal) => request_frames::part_of(&refusal),
    }
}

/// The refusal of a type that is not there.
pub(crate) fn no_type(index: u32) -> Refusal
    ensures { result ≡ Refusal.NotGiven spaces.TYPES index }
{
    Refusal::NotGiven {
        space: space::TYPES,
        index,
    }
}

/// The refusal of an item that is not there.
pub(crate) fn no_item(index: u32) -> Refusal
    ensures { result ≡ Refusal.NotGiven spaces.ITEMS index }
{
    Refusal::NotGiven {
        space: space::ITEMS,
        index,
    }
}

/// The refusal of a name that is not there.
pub(crate) fn no_name(offset: u32) -> Refusal
    ensures { result ≡ Refusal.NotGiven spaces.NAMES offset }
{
    Refusal::NotGiven {
        space: space::NAMES,
        index: offset,
    }
}
