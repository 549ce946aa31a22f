ghost use Rattle.std.specs.Prelude.{◌≡◌, ◌≢◌, ◌≤◌, ◌<◌, ◌+◌, ◌^◌, ◌++◌, ℕ, [], length, drop, slice_index, IfOk, OnOk, OnErr, Err};
ghost use Rattle.srv_edge.specs.Name.{IsName};
ghost use Rattle.srv_edge.specs.Frames.{IsHead, IsVersion, frame_bytes, half_bytes, tag_size, word_bytes};
ghost use Rattle.request_frames.specs.Requests.{IsAsked, IsBadBody, IsKind, add_name, asked, frame_in, head_in, message_in, request_message};

use crate::list::read_list;
use crate::request::{BadFrame, Request};
use srv_edge::limit::NAME_BYTES;
use srv_edge::{Head, half_at, kind, word_at};

/// The head of a frame of a version, of which the kind, the tag and the body are given. Behind its
/// length the frame is spelled so.
pub fn head_of(version: u8, frame: &[u8]) -> Head
    requires version { IsVersion version }
    requires some { 1 + tag_size version ≤ length frame.now }
    ensures head { result ≡ head_in version frame.now }
    ensures is_head { IsHead result }
    ensures spelled { frame_bytes (frame_in version frame.now)
        ≡ word_bytes (length frame.now) ++ frame.now }
{
    let tag = if version == 2 {
        word_at(behind(frame, 1))
    } else {
        0
    };
    Head { version, tag }
}

// What stands behind so many bytes.
pub(crate) fn behind(bytes: &[u8], at: usize) -> &[u8]
    requires { at ≤ length bytes.now }
    ensures { result.now ≡ drop at bytes.now }
{
    &bytes[at..]
}

// What stands behind the kind and the tag.
pub(crate) fn body_of(version: u8, frame: &[u8]) -> &[u8]
    requires { 1 + tag_size version ≤ length frame.now }
    ensures { result.now ≡ drop (1 + tag_size version) frame.now }
{
    if version == 2 {
        &frame[5..]
    } else {
        &frame[1..]
    }
}

/// Reads a request from the kind, the tag and the body of a frame of a version.
pub fn read_request<'a>(version: u8, frame: &'a [u8]) -> Result<Request<'a>, BadFrame>
    requires { 1 + tag_size version ≤ length frame.now }
    ensures request { IfOk result
        (λ request. request_message (asked request) ≡ message_in version frame.now) }
    ensures asked { IfOk result (λ request. IsAsked version (asked request)) }
    ensures kind { result ≡ Err BadFrame.Kind → ¬ IsKind version (slice_index frame.now 0) }
    ensures body { result ≡ Err BadFrame.Body → IsBadBody version (message_in version frame.now) }
{
    let body = body_of(version, frame);
    match frame[0] {
        kind::HELLO => Ok(Request::Hello(read_hello(body)?)),
        kind::ADD_TYPE => Ok(Request::AddType(body)),
        kind::ADD_ITEM => Ok(Request::AddItem(body)),
        kind::ADD_NAME => read_name(body),
        kind::GET_TYPE => Ok(Request::GetType(read_word(body)?)),
        kind::GET_ITEM => Ok(Request::GetItem(read_word(body)?)),
        kind::GET_NAME => Ok(Request::GetName(read_word(body)?)),
        kind::COMMIT if body.is_empty() => Ok(Request::Commit),
        kind::COUNTS if body.is_empty() => Ok(Request::Counts),
        kind::BYE if body.is_empty() => Ok(Request::Bye),
        kind::COMMIT | kind::COUNTS | kind::BYE => Err(BadFrame::Body),
        kind::ADD_TYPES if version == 2 => Ok(Request::AddTypes(read_list(body)?)),
        kind::ADD_ITEMS if version == 2 => Ok(Request::AddItems(read_list(body)?)),
        _ => Err(BadFrame::Kind),
    }
}

// A body that is a version of at least 1.
fn read_hello(body: &[u8]) -> Result<u16, BadFrame>
    ensures version { IfOk result (λ version. half_bytes version ≡ body.now) }
    ensures some { IfOk result (λ version. 1 ≤ version) }
    ensures err { OnErr result (result ≡ Err BadFrame.Body) }
    ensures bad { OnErr result
        ((version : ℕ) → 1 ≤ version → version < 2 ^ 16 → half_bytes version ≢ body.now) }
{
    if body.len() != 2 {
        return Err(BadFrame::Body);
    }
    let version = half_at(body);
    if version == 0 {
        return Err(BadFrame::Body);
    }
    Ok(version)
}

fn read_name<'a>(body: &'a [u8]) -> Result<Request<'a>, BadFrame>
    ensures name { IfOk result (λ request. asked request ≡ add_name body.now) }
    ensures is_name { OnOk result (IsName body.now) }
    ensures err { OnErr result (result ≡ Err BadFrame.Body) }
    ensures bad { OnErr result (¬ IsName body.now) }
{
    if body.len() > NAME_BYTES as usize || body.contains(&0) {
        return Err(BadFrame::Body);
    }
    Ok(Request::AddName(body))
}

// A body that is one number of four bytes.
pub(crate) fn read_word(body: &[u8]) -> Result<u32, BadFrame>
    ensures word { IfOk result (λ n. word_bytes n ≡ body.now) }
    ensures err { OnErr result (result ≡ Err BadFrame.Body) }
    ensures bad { OnErr result ((n : ℕ) → word_bytes n ≢ body.now) }
{
    if body.len() == 4 {
        Ok(word_at(body))
    } else {
        Err(BadFrame::Body)
    }
}
