ghost use Rattle.std.specs.Prelude.{◌≡◌, ◌≢◌, ◌≤◌, ◌+◌, ◌++◌, ◌∷◌, ℕ, length, slice_index, All, IfOk, OnOk, OnErr, Err};
ghost use Rattle.srv_edge.specs.declared.code.TheConstants as codes;
ghost use Rattle.srv_edge.specs.declared.limit.TheConstants.{RECORD_BYTES};
ghost use Rattle.srv_edge.specs.Frames.{IsVersion, frame_bytes, half_bytes, refused, tag_size, word_bytes};
ghost use Rattle.request_frames.specs.Lists.{IsPartsLength, part_bytes};
ghost use Rattle.request_frames.specs.Requests.{FitsFrame, IsAsked, asked, head_in, message_in, request_message};
ghost use Rattle.request_frames.specs.Replies.{IsBadReply, IsReply, IsReplyKind, reply_message};

use crate::read::{body_of, head_of, read_word};
use crate::reply::{Part, Reply};
use crate::request::{BadFrame, Request};
use crate::write::tag_of;
use srv_edge::limit::LIST_RECORDS;
use srv_edge::{Head, code, half, half_at, kind, space, word, word_at};
use std::alloc::AllocError;

// The kinds of replies.
const HELLO_REPLY: u8 = kind::HELLO + kind::REPLY;

const ADD_TYPE_REPLY: u8 = kind::ADD_TYPE + kind::REPLY;

const ADD_ITEM_REPLY: u8 = kind::ADD_ITEM + kind::REPLY;

const ADD_NAME_REPLY: u8 = kind::ADD_NAME + kind::REPLY;

const GET_TYPE_REPLY: u8 = kind::GET_TYPE + kind::REPLY;

const GET_ITEM_REPLY: u8 = kind::GET_ITEM + kind::REPLY;

const GET_NAME_REPLY: u8 = kind::GET_NAME + kind::REPLY;

const COMMIT_REPLY: u8 = kind::COMMIT + kind::REPLY;

const COUNTS_REPLY: u8 = kind::COUNTS + kind::REPLY;

const BYE_REPLY: u8 = kind::BYE + kind::REPLY;

const ADD_TYPES_REPLY: u8 = kind::ADD_TYPES + kind::REPLY;

const ADD_ITEMS_REPLY: u8 = kind::ADD_ITEMS + kind::REPLY;

/// Writes a request behind what is there, with its length.
pub fn write_request(head: Head, r: &Request, out: &mut Vec<u8>) -> Result<(), AllocError>
    requires asked { IsAsked head.version (asked r.now) }
    requires fits { FitsFrame (asked r.now) }
    ensures ok { OnOk result (out.new.items ≡ out.old.items ++ frame_bytes (record {
      head = head;
      message = request_message (asked r.now);
    })) }
    ensures err { OnErr result (out.new.items ≡ out.old.items) }
{
    match *r {
        Request::Hello(version) => append(head, kind::HELLO, &half(version), out),
        Request::AddType(bytes) => append(head, kind::ADD_TYPE, bytes, out),
        Request::AddItem(bytes) => append(head, kind::ADD_ITEM, bytes, out),
        Request::AddName(name) => append(head, kind::ADD_NAME, name, out),
        Request::GetType(index) => append(head, kind::GET_TYPE, &word(index), out),
        Request::GetItem(index) => append(head, kind::GET_ITEM, &word(index), out),
        Request::GetName(offset) => append(head, kind::GET_NAME, &word(offset), out),
        Request::Commit => append(head, kind::COMMIT, &[], out),
        Request::Counts => append(head, kind::COUNTS, &[], out),
        Request::Bye => append(head, kind::BYE, &[], out),
        Request::AddTypes(list) => append(head, kind::ADD_TYPES, list, out),
        Request::AddItems(list) => append(head, kind::ADD_ITEMS, list, out),
    }
}

// Appends a frame.
fn append(head: Head, kind: u8, body: &[u8], out: &mut Vec<u8>) -> Result<(), AllocError>
    requires { length body.now ≤ RECORD_BYTES }
    ensures ok { OnOk result (out.new.items ≡ out.old.items ++ frame_bytes (record {
      head = head;
      message = record { kind = kind; body = body.now };
    })) }
    ensures err { OnErr result (out.new.items ≡ out.old.items) }
{
    let number = word(head.tag);
    let tag = tag_of(head, &number);
    out.reserve(body.len() + 9)?;
    out.extend_from_slice(&word((tag.len() + body.len()) as u32 + 1))
        .unwrap();
    out.push(kind).unwrap();
    out.extend_from_slice(tag).unwrap();
    out.extend_from_slice(body).unwrap();
    Ok(())
}

/// Reads the head and the reply from the kind, the tag and the body of a frame of a version.
pub fn read_reply<'a>(version: u8, frame: &'a [u8]) -> Result<(Head, Reply<'a>), BadFrame>
    requires version { IsVersion version }
    requires some { 1 + tag_size version ≤ length frame.now }
    ensures head { IfOk result (λ read. read.0 ≡ head_in version frame.now) }
    ensures reply { IfOk result (λ read. reply_message read.1 ≡ message_in version frame.now) }
    ensures answered { IfOk result (λ read. IsReply version read.1) }
    ensures kind { result ≡ Err BadFrame.Kind
        → ¬ IsReplyKind version (slice_index frame.now 0) }
    ensures body { result ≡ Err BadFrame.Body
        → IsBadReply version (message_in version frame.now) }
{
    let reply = read_message(version, frame)?;
    Ok((head_of(version, frame), reply))
}

// Reads the reply alone.
fn read_message<'a>(version: u8, frame: &'a [u8]) -> Result<Reply<'a>, BadFrame>
    requires { 1 + tag_size version ≤ length frame.now }
    ensures reply { IfOk result (λ reply. reply_message reply ≡ message_in version frame.now) }
    ensures answered { IfOk result (λ reply. IsReply version reply) }
    ensures kind { result ≡ Err BadFrame.Kind
        → ¬ IsReplyKind version (slice_index frame.now 0) }
    ensures body { result ≡ Err BadFrame.Body
        → IsBadReply version (message_in version frame.now) }
{
    let body = body_of(version, frame);
    match frame[0] {
        HELLO_REPLY => Ok(Reply::Hello(read_hello(body)?)),
        ADD_TYPE_REPLY => Ok(Reply::AddedType(read_word(body)?)),
        ADD_ITEM_REPLY => Ok(Reply::AddedItem(read_word(body)?)),
        ADD_NAME_REPLY => Ok(Reply::AddedName(read_word(body)?)),
        GET_TYPE_REPLY => Ok(Reply::GotType(body)),
        GET_ITEM_REPLY => Ok(Reply::GotItem(body)),
        GET_NAME_REPLY => Ok(Reply::GotName(read_name(body)?)),
        COMMIT_REPLY => Ok(Reply::Committed(read_word(body)?)),
        COUNTS_REPLY => {
            let (types, items, names) = read_counts(body)?;
            Ok(Reply::Counted(types, items, names))
        }
        BYE_REPLY if body.is_empty() => Ok(Reply::Bye),
        BYE_REPLY => Err(BadFrame::Body),
        ADD_TYPES_REPLY if version == 2 => Ok(Reply::Parts {
            space: space::TYPES,
            parts: read_parts(body)?,
        }),
        ADD_ITEMS_REPLY if version == 2 => Ok(Reply::Parts {
            space: space::ITEMS,
            parts: read_parts(body)?,
        }),
        kind::REFUSED => {
            let Part { code, a, b } = read_refusal(body)?;
            Ok(Reply::Refused { code, a, b })
        }
        _ => Err(BadFrame::Kind),
    }
}

// A body that is the parts of the reply to a list.
fn read_parts<'a>(body: &'a [u8]) -> Result<&'a [u8], BadFrame>
    ensures same { IfOk result (λ parts. parts.now ≡ body.now) }
    ensures length { IfOk result (λ parts. IsPartsLength (length parts.now)) }
    ensures err { OnErr result (result ≡ Err BadFrame.Body) }
    ensures bad { OnErr result (¬ IsPartsLength (length body.now)) }
{
    let count = body.len() / 9;
    if count == 0 || count > LIST_RECORDS as usize || body.len() != count * 9 {
        return Err(BadFrame::Body);
    }
    Ok(body)
}

// A body that is one of the versions of the protocol.
fn read_hello(body: &[u8]) -> Result<u16, BadFrame>
    ensures version { IfOk result (λ version. half_bytes version ≡ body.now) }
    ensures spoken { IfOk result (λ version. (1 ≤ version) × (version ≤ 2)) }
    ensures err { OnErr result (result ≡ Err BadFrame.Body) }
    ensures bad { OnErr result
        ((version : ℕ) → 1 ≤ version → version ≤ 2 → half_bytes version ≢ body.now) }
{
    if body.len() != 2 {
        return Err(BadFrame::Body);
    }
    let version = half_at(body);
    if version == 0 || version > 2 {
        return Err(BadFrame::Body);
    }
    Ok(version)
}

// A body that is a name.
fn read_name<'a>(body: &'a [u8]) -> Result<&'a [u8], BadFrame>
    ensures same { IfOk result (λ name. name.now ≡ body.now) }
    ensures no_nul { OnOk result (All (λ b. b ≢ 0) body.now) }
    ensures err { OnErr result (result ≡ Err BadFrame.Body) }
    ensures bad { OnErr result (¬ All (λ b. b ≢ 0) body.now) }
{
    if body.contains(&0) {
        return Err(BadFrame::Body);
    }
    Ok(body)
}

// A body that is three numbers.
fn read_counts(body: &[u8]) -> Result<(u32, u32, u32), BadFrame>
    ensures counts { IfOk result
        (λ n. word_bytes n.0 ++ word_bytes n.1 ++ word_bytes n.2 ≡ body.now) }
    ensures err { OnErr result (result ≡ Err BadFrame.Body) }
    ensures bad { OnErr result
        ((types items names : ℕ)
        → word_bytes types ++ word_bytes items ++ word_bytes names ≢ body.now) }
{
    if body.len() != 12 {
        return Err(BadFrame::Body);
    }
    let rest = &body[4..];
    Ok((word_at(body), word_at(rest), word_at(&rest[4..])))
}

// A body that is a code and two numbers.
fn read_refusal(body: &[u8]) -> Result<Part, BadFrame>
    ensures numbers { IfOk result (λ p. part_bytes p ≡ body.now) }
    ensures code { IfOk result
        (λ p. (codes.BAD_LENGTH ≤ p.code) × (p.code ≤ codes.UNDERWAY)) }
    ensures err { OnErr result (result ≡ Err BadFrame.Body) }
    ensures bad { OnErr result
        ((code a b : ℕ) → codes.BAD_LENGTH ≤ code → code ≤ codes.UNDERWAY
        → (refused code a b).body ≢ body.now) }
{
    if body.len() != 9 {
        return Err(BadFrame::Body);
    }
    let code = body[0];
    if code < code::BAD_LENGTH || code > code::UNDERWAY {
        return Err(BadFrame::Body);
    }
    let numbers = &body[1..];
    let a = word_at(numbers);
    let b = word_at(&numbers[4..]);
    Ok(Part { code, a, b })
}
