//! The new directory, and the new blocks of the streams.

ghost use Rattle.std.specs.Prelude.{◌≡◌, ◌≤◌, ◌<◌, ℕ, ◌+◌, ◌-◌, ◌*◌, ◌/◌, ◌^◌, ◌++◌, ◌∷◌, [], All, None, Some, IfOk, OnOk, drop, length};
ghost use Rattle.msf_blocks.specs.Blocks.{IsBlockSize};
ghost use Rattle.stream_directory.specs.Directory.{AreSized, IsSized, absent_size, stream_at};
ghost use Rattle.msf_image.specs.Packed.{block_of};
ghost use Rattle.cow_streams.specs.Edits.{IsCovered, edit_at};
ghost use Rattle.cow_streams.specs.Layout.{all_parts, first_laid, laid, laid_one, layout_of, layouts, numbers, part_at, parts_in, parts_of, pieces};
ghost use Rattle.cow_streams.specs.Planned.{writes_to};

use crate::edits::{edit_at, len_after};
use crate::write::BlockWrite;
use msf_blocks::{Edit, block_offset, blocks_of_size};
use std::alloc::{AllocError, Global};
use stream_directory::Stream;

/// All streams after the edits. The blocks that are written take the given ones in order, behind
/// those of the writes that are there, and stand behind these writes.
pub fn lay_streams(
    alloc: Global,
    block_size: u32,
    edits: &[Edit],
    streams: &[Option<Stream>],
    given: &[u32],
    writes: &mut Vec<BlockWrite>,
) -> Result<Vec<Option<Stream>>, AllocError>
    requires size { IsBlockSize block_size }
    requires few { length streams.now < 2 ^ 32 }
    requires sized { AreSized block_size streams.now }
    requires short { All (λ e. e.len < absent_size) edits.now }
    requires covered { (i : ℕ) → 1 ≤ i
        → IsCovered block_size edits.now i (stream_at streams.now i) }
    requires enough { length writes.old.items
        + length (pieces (all_parts (layouts block_size edits.now streams.now)))
        ≤ length given.now }
    ensures streams { IfOk result (λ all. all.items
        ≡ laid (layouts block_size edits.now streams.now)
        (drop (length writes.old.items) given.now)) }
    ensures writes { OnOk result (writes.new.items ≡ writes.old.items
        ++ writes_to (pieces (all_parts (layouts block_size edits.now streams.now)))
        (drop (length writes.old.items) given.now)) }
{
    let mut all = first_of(alloc, streams)?;
    for i in 1..streams.len() {
        let stream = lay_one(
            alloc,
            block_size,
            edits,
            i as u32,
            &streams[i],
            given,
            writes,
        )?;
        all.push(stream)?;
    }
    Ok(all)
}

// Stream 0, if there is one, which has no bytes.
fn first_of(alloc: Global, streams: &[Option<Stream>]) -> Result<Vec<Option<Stream>>, AllocError>
    ensures { IfOk result (λ first. first.items ≡ first_laid streams.now) }
{
    let mut first = Vec::with_capacity(alloc, streams.len())?;
    if !streams.is_empty() {
        first.push(Some(Stream::new(0, Vec::new(alloc))))?;
    }
    Ok(first)
}

// A stream after the edits.
fn lay_one(
    alloc: Global,
    block_size: u32,
    edits: &[Edit],
    i: u32,
    stream: &Option<Stream>,
    given: &[u32],
    writes: &mut Vec<BlockWrite>,
) -> Result<Option<Stream>, AllocError>
    requires size { IsBlockSize block_size }
    requires sized { IsSized block_size stream.now }
    requires short { All (λ e. e.len < absent_size) edits.now }
    requires covered { IsCovered block_size edits.now i stream.now }
    requires enough { length writes.old.items
        + length (pieces (parts_in (layout_of block_size edits.now i stream.now)))
        ≤ length given.now }
    ensures stream { IfOk result (λ x. x ≡ laid_one (layout_of block_size edits.now i stream.now)
        (drop (length writes.old.items) given.now)) }
    ensures writes { OnOk result (writes.new.items ≡ writes.old.items
        ++ writes_to (pieces (parts_in (layout_of block_size edits.now i stream.now)))
        (drop (length writes.old.items) given.now)) }
{
    match stream {
        Some(s) => {
            let size = len_after(edits, i, s.size());
            let blocks = lay_blocks(alloc, block_size, edits, i, s, given, writes)?;
            Ok(Some(Stream::new(size, blocks)))
        }
        None => Ok(None),
    }
}

// The blocks of a stream after the edits.
fn lay_blocks(
    alloc: Global,
    block_size: u32,
    edits: &[Edit],
    i: u32,
    stream: &Stream,
    given: &[u32],
    writes: &mut Vec<BlockWrite>,
) -> Result<Vec<u32>, AllocError>
    requires size { IsBlockSize block_size }
    requires sized { IsSized block_size (Some stream.now) }
    requires covered { IsCovered block_size edits.now i (Some stream.now) }
    requires enough { length writes.old.items
        + length (pieces (parts_of block_size edits.now i stream.now)) ≤ length given.now }
    ensures numbers { IfOk result (λ blocks. blocks.items
        ≡ numbers (parts_of block_size edits.now i stream.now)
        (drop (length writes.old.items) given.now)) }
    ensures writes { OnOk result (writes.new.items ≡ writes.old.items
        ++ writes_to (pieces (parts_of block_size edits.now i stream.now))
        (drop (length writes.old.items) given.now)) }
{
    let count = blocks_of_size(block_size, len_after(edits, i, stream.size()));
    let mut blocks = Vec::with_capacity(alloc, count as usize)?;
    for k in 0..count {
        let b = lay_block(
            alloc,
            block_size,
            edits,
            i,
            k,
            stream.blocks(),
            given,
            writes,
        )?;
        blocks.push(b)?;
    }
    Ok(blocks)
}

// Block k of a stream after the edits, which had these blocks.
fn lay_block(
    alloc: Global,
    block_size: u32,
    edits: &[Edit],
    i: u32,
    k: u32,
    old: &[u32],
    given: &[u32],
    writes: &mut Vec<BlockWrite>,
) -> Result<u32, AllocError>
    requires size { IsBlockSize block_size }
    requires there { edit_at edits.now i (k * block_size) ≡ None → k < length old.now }
    requires enough { length writes.old.items
        + length (pieces (part_at block_size edits.now i old.now k ∷ [])) ≤ length given.now }
    ensures number { IfOk result (λ b. b ∷ []
        ≡ numbers (part_at block_size edits.now i old.now k ∷ [])
        (drop (length writes.old.items) given.now)) }
    ensures writes { OnOk result (writes.new.items ≡ writes.old.items
        ++ writes_to (pieces (part_at block_size edits.now i old.now k ∷ []))
        (drop (length writes.old.items) given.now)) }
{
    match edit_at(edits, i, block_offset(block_size, k)) {
        Some(e) => {
            let b = given[writes.len()];
            let piece = piece_of(alloc, block_size, e, k)?;
            writes.push(BlockWrite::new(b, piece))?;
            Ok(b)
        }
        None => Ok(old[k as usize]),
    }
}

// Block k of a stream, of which an edit has the first byte.
fn piece_of(alloc: Global, block_size: u32, e: &Edit, k: u32) -> Result<Vec<u8>, AllocError>
    requires size { IsBlockSize block_size }
    requires behind { e.now.at ≤ k * block_size }
    ensures { IfOk result (λ piece. piece.items
        ≡ block_of block_size e.now.bytes (k - e.now.at / block_size)) }
{
    let mut piece = Vec::with_capacity(alloc, block_size as usize)?;
    let start = (k - e.at() / block_size) as usize * block_size as usize;
    let from = e.bytes_len().min(start);
    let end = e.bytes_len().min(from + block_size as usize);
    e.put_bytes(&mut piece, from, end)?;
    piece.resize(block_size as usize, 0)?;
    Ok(piece)
}
