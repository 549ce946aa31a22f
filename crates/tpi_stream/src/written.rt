//! Parts of the text of a stream of records. What is not asked for is not read.

ghost use Rattle.std.specs.Prelude.{◌≡◌, ◌≤◌, ◌+◌, ◌^◌, ◌++◌, drop, length, take, IfOk};
ghost use Rattle.srv_edge.specs.Records.{joined};
ghost use Rattle.tpi_stream.specs.Hashes.{index_offsets};
ghost use Rattle.tpi_stream.specs.HeaderText.{header_text};
ghost use Rattle.tpi_stream.specs.Written.{record_stream_text, written_header};
ghost use Rattle.tpi_stream.specs.declared.header.TheConstants.{HEADER_BYTES};

use crate::header::{Kept, header_bytes, header_with};
use srv_edge::RecordList;
use std::alloc::{AllocError, Global};

/// The first bytes of the stream, as many as these or all, where the index offsets are at hand.
#[tactic(auto, unfolding(crate::specs::Written::record_stream_text))]
pub fn record_stream_first(
    alloc: Global,
    kept: Kept,
    records: &RecordList,
    offsets: &[u8],
    count: u32,
) -> Result<Vec<u8>, AllocError>
    requires few { length records.now ≤ 2 ^ 23 }
    requires offsets { offsets.now ≡ index_offsets records.now }
    ensures { IfOk result
        (λ text. text.items ≡ take count (record_stream_text kept records.now)) }
{
    let header = written_header(kept, records, offsets);
    first_of_both(alloc, &header, records.joined(), count as usize)
}

/// The stream from a place on, in two runs, where the index offsets are at hand. The second is a part
/// of the records' own bytes.
#[tactic(auto, unfolding(crate::specs::Written::record_stream_text))]
pub fn record_stream_from<'a>(
    alloc: Global,
    kept: Kept,
    records: &'a RecordList,
    offsets: &[u8],
    at: u32,
) -> Result<(Vec<u8>, &'a [u8]), AllocError>
    requires few { length records.now ≤ 2 ^ 23 }
    requires offsets { offsets.now ≡ index_offsets records.now }
    requires inside { at ≤ HEADER_BYTES + length (joined records.now) }
    ensures { IfOk result (λ runs. runs.0.items ++ runs.1.now
        ≡ drop at (record_stream_text kept records.now)) }
{
    let header = written_header(kept, records, offsets);
    rest_of_both(alloc, &header, records.joined(), at as usize)
}

// The text of the header.
fn written_header(kept: Kept, records: &RecordList, offsets: &[u8]) -> [u8; 56]
    requires few { length records.now ≤ 2 ^ 23 }
    requires offsets { offsets.now ≡ index_offsets records.now }
    ensures { result ≡ header_text (written_header kept records.now) }
{
    let bytes = records.joined().len() as u32;
    header_bytes(&header_with(kept, records.len(), bytes, offsets.len() as u32))
}

// The first bytes of two runs that stand one behind the other, as many as these or all.
fn first_of_both(
    alloc: Global,
    front: &[u8],
    back: &[u8],
    count: usize,
) -> Result<Vec<u8>, AllocError>
    ensures { IfOk result (λ text. text.items ≡ take count (front.now ++ back.now)) }
{
    if count <= front.len() {
        return front[..count].to_vec(alloc);
    }
    let mut text = front.to_vec(alloc)?;
    text.extend_from_slice(&back[..back.len().min(count - front.len())])?;
    Ok(text)
}

// The bytes of two such runs from a place on, of which those of the second are not copied.
fn rest_of_both<'a>(
    alloc: Global,
    front: &[u8],
    back: &'a [u8],
    at: usize,
) -> Result<(Vec<u8>, &'a [u8]), AllocError>
    requires { at ≤ length front.now + length back.now }
    ensures { IfOk result
        (λ runs. runs.0.items ++ runs.1.now ≡ drop at (front.now ++ back.now)) }
{
    if at >= front.len() {
        return Ok((Vec::new(alloc), &back[at - front.len()..]));
    }
    Ok((front[at..].to_vec(alloc)?, back))
}
