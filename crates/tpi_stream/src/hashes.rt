ghost use Rattle.std.specs.Prelude.{◌≡◌, ◌≤◌, ◌<◌, ◌+◌, ◌-◌, ◌*◌, ◌%◌, ◌^◌, ◌++◌, drop, length, map, take, IfOk, OnOk};
ghost use Rattle.std.specs.List.{flat_map};
ghost use Rattle.byteorder.specs.Endian.{little_bytes};
ghost use Rattle.srv_edge.specs.Records.{joined};
ghost use Rattle.tpi_stream.specs.declared.header.TheConstants.{FIRST_INDEX, KEY_BYTES};
ghost use Rattle.type_hash.specs.Record.{record_hash};
ghost use Rattle.tpi_stream.specs.Hashes.{has_offset, hash_text, index_offsets, offset_between, offsets_between, start_at};

use crate::header::{FIRST_INDEX, KEY_BYTES};
use byteorder::{ByteOrder, LittleEndian};
use srv_edge::{RecordList, word};
use std::alloc::{AllocError, Global};

/// A record in which a multiple of so many bytes is passed has an index offset.
pub const OFFSET_STEP: u32 = 8192;

/// The text of the hash stream from a place of the buckets on: the bucket of each record, and the
/// index offsets. The hashes of the records and the offsets are at hand: no record is hashed.
pub fn hash_text_from(
    alloc: Global,
    records: &RecordList,
    hashes: &[u32],
    buckets: u32,
    offsets: &[u8],
    at: u32,
) -> Result<Vec<u8>, AllocError>
    requires some { 1 ≤ buckets }
    requires few { length records.now ≤ 2 ^ 23 }
    requires hashes { hashes.now ≡ map record_hash records.now }
    requires offsets { offsets.now ≡ index_offsets records.now }
    requires bucket { at % KEY_BYTES ≡ 0 }
    requires inside { at ≤ KEY_BYTES * length records.now }
    ensures { IfOk result (λ text. text.items ≡ drop at (hash_text records.now buckets)) }
{
    let size = 4 * records.len() as usize - at as usize + offsets.len();
    let mut text = Vec::with_capacity(alloc, size)?;
    put_hashes(&mut text, hashes, at / KEY_BYTES, buckets)?;
    text.extend_from_slice(offsets)?;
    Ok(text)
}

/// Puts the index offsets of the records from a position on, of which the first begins at `start`,
/// behind those of the records before.
pub fn extend_offsets(
    text: &mut Vec<u8>,
    records: &RecordList,
    from: u32,
    start: u32,
) -> Result<(), AllocError>
    requires few { length records.now ≤ 2 ^ 23 }
    requires from { from ≤ length records.now }
    requires start { start ≡ start_at records.now from }
    requires before { text.old.items ≡ index_offsets (take from records.now) }
    ensures { OnOk result (text.new.items ≡ index_offsets records.now) }
{
    let _ = records.joined();
    put_offsets(text, records, from, start)
}

// The bucket of each hash from a position on.
fn put_hashes(text: &mut Vec<u8>, hashes: &[u32], from: u32, buckets: u32) -> Result<(), AllocError>
    requires some { 1 ≤ buckets }
    requires from { from ≤ length hashes.now }
    ensures { OnOk result (text.new.items ≡ text.old.items
        ++ flat_map (λ h. little_bytes 4 (h % buckets)) (drop from hashes.now)) }
{
    for hash in &hashes[from as usize..] {
        text.extend_from_slice(&word(hash % buckets))?;
    }
    Ok(())
}

// The index offset of each record that has one, from a position on, of which the first begins at
// `start`.
fn put_offsets(
    text: &mut Vec<u8>,
    records: &RecordList,
    from: u32,
    start: u32,
) -> Result<(), AllocError>
    requires few { length records.now ≤ 2 ^ 23 }
    requires short { length (joined records.now) < 2 ^ 32 }
    requires from { from ≤ length records.now }
    requires start { start ≡ start_at records.now from }
    ensures { OnOk result (text.new.items ≡ text.old.items
        ++ offsets_between records.now from (length records.now - from)) }
{
    let mut i = from;
    let mut start = start;
    while let Some(record) = records.get(i) {
        let end = start + record.len() as u32;
        put_offset(text, i, start, end)?;
        start = end;
        i += 1;
    }
    Ok(())
}

// The index offset of the record at a position, which has these bounds.
fn put_offset(text: &mut Vec<u8>, i: u32, start: u32, end: u32) -> Result<(), AllocError>
    requires { i ≤ 2 ^ 23 }
    ensures { OnOk result (text.new.items ≡ text.old.items ++ offset_between i start end) }
{
    if has_offset(i, start, end) {
        text.extend_from_slice(&offset_bytes(i, start))?;
    }
    Ok(())
}

// The index of the record at a position, and where it begins.
fn offset_bytes(i: u32, start: u32) -> [u8; 8]
    requires { i ≤ 2 ^ 23 }
    ensures { result ≡ little_bytes 4 (FIRST_INDEX + i) ++ little_bytes 4 start }
{
    let mut bytes = [0; 8];
    LittleEndian::write_u32(&mut bytes[..4], FIRST_INDEX + i);
    LittleEndian::write_u32(&mut bytes[4..], start);
    bytes
}

// Whether the record at a position, which has these bounds, has an index offset.
fn has_offset(i: u32, start: u32, end: u32) -> bool
    ensures { result ≡ has_offset i start end }
{
    i == 0 || start / OFFSET_STEP < end / OFFSET_STEP
}
