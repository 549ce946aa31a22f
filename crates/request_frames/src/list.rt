ghost use Rattle.std.specs.Prelude.{◌≡◌, ◌≤◌, ◌<◌, ◌+◌, ◌++◌, length, drop, IfOk, IfSome, OnErr, Err, None};
ghost use Rattle.request_frames.specs.Lists.{BeginsWith, BeginsWithNone, IsRecordList, part_bytes};

use crate::read::behind;
use crate::reply::Part;
use crate::request::BadFrame;
use srv_edge::limit::LIST_RECORDS;
use srv_edge::{half_at, word_at};

/// The record that stands at a place of a list, with its two bytes of length.
pub fn next_record(body: &[u8], at: usize) -> Option<&[u8]>
    requires { at ≤ length body.now }
    ensures record { IfSome result (λ r. BeginsWith (drop at body.now) r.now) }
    ensures none { result ≡ None → BeginsWithNone (drop at body.now) }
{
    first_record(behind(body, at))
}

// The record with which bytes begin.
fn first_record(rest: &[u8]) -> Option<&[u8]>
    ensures record { IfSome result (λ r. BeginsWith rest.now r.now) }
    ensures none { result ≡ None → BeginsWithNone rest.now }
{
    if rest.len() < 2 {
        return None;
    }
    let end = 2 + usize::from(half_at(rest));
    if rest.len() < end {
        return None;
    }
    Some(&rest[..end])
}

/// The part at a place of the reply to a list.
pub fn next_part(body: &[u8], at: usize) -> Option<Part>
    requires { at ≤ length body.now }
    ensures part { IfSome result
        (λ p. drop at body.now ≡ part_bytes p ++ drop 9 (drop at body.now)) }
    ensures none { result ≡ None → length body.now < at + 9 }
{
    first_part(behind(body, at))
}

// The part with which bytes begin.
fn first_part(rest: &[u8]) -> Option<Part>
    ensures part { IfSome result (λ p. rest.now ≡ part_bytes p ++ drop 9 rest.now) }
    ensures none { result ≡ None → length rest.now < 9 }
{
    if rest.len() < 9 {
        return None;
    }
    Some(Part {
        code: rest[0],
        a: word_at(behind(rest, 1)),
        b: word_at(behind(rest, 5)),
    })
}

// A body that is a list of records.
pub(crate) fn read_list<'a>(body: &'a [u8]) -> Result<&'a [u8], BadFrame>
    ensures same { IfOk result (λ list. list.now ≡ body.now) }
    ensures list { IfOk result (λ list. IsRecordList list.now) }
    ensures err { OnErr result (result ≡ Err BadFrame.Body) }
    ensures bad { OnErr result (¬ IsRecordList body.now) }
{
    let mut at = 0;
    let mut count = 0;
    while let Some(record) = next_record(body, at) {
        at += record.len();
        count += 1;
    }
    if at < body.len() || count == 0 || count > LIST_RECORDS as usize {
        return Err(BadFrame::Body);
    }
    Ok(body)
}
