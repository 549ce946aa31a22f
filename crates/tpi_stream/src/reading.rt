ghost use Rattle.std.specs.Prelude.{◌≡◌, ◌≤◌, ◌<◌, ◌+◌, ◌^◌, false, true, drop, length, take, IfOk, IfSome, MatchOption};
ghost use Rattle.msf_blocks.specs.Judging.{Tells};
ghost use Rattle.tpi_stream.specs.Reading.{damage_in, has_record, header_of, reading, records_in, size_of};
ghost use Rattle.tpi_stream.specs.Stream.{IsStream};
ghost use Rattle.tpi_stream.specs.declared.header.TheConstants.{HEADER_BYTES};

use crate::fault::TpiFault;
use crate::header::{HEADER_BYTES, Header, header_in, judge};
use byteorder::{ByteOrder, LittleEndian};
use srv_edge::{Limits, RecordList};
use std::alloc::Global;

/// What a stream of types or items holds.
#[derive(Drop)]
pub struct Records {
    pub header: Header,
    pub list: RecordList,
}

/// The header and the records of a stream, or the first test that it fails. Bytes behind the
/// records are not read. Memory is taken for the records that are there, and for nothing that a
/// number announces.
pub fn read_records(alloc: Global, stream: &[u8], limits: Limits) -> Result<Records, TpiFault>
    // What is read stands in the stream, within the limits.
    ensures found { IfOk result (IsStream limits.records limits.bytes stream.now) }
    // The first test that fails, unless memory runs out.
    ensures exact { Tells damage_in (λ r. r) result
        (reading limits.records limits.bytes stream.now) }
{
    records_at(alloc, stream, limits)
}

#[tactic(auto, unfolding(crate::specs::Reading::reading))]
fn records_at(alloc: Global, stream: &[u8], limits: Limits) -> Result<Records, TpiFault>
    ensures { Tells damage_in (λ r. r) result (reading limits.records limits.bytes stream.now) }
{
    let header = header_of(stream, limits)?;
    let bytes = &stream[56..56 + header.record_bytes as usize];
    let list = records_in(alloc, bytes)?;
    if list.len() != header.end - header.begin {
        return Err(TpiFault::Count { at: 12 });
    }
    Ok(Records { header, list })
}

// The header, by its tests.
#[tactic(auto, unfolding(crate::specs::Reading::header_of))]
fn header_of(stream: &[u8], limits: Limits) -> Result<Header, TpiFault>
    ensures exact { result ≡ header_of limits.records limits.bytes stream.now }
    ensures order { IfOk result (λ h. h.begin ≤ h.end) }
    ensures few { IfOk result (λ h. h.record_bytes ≤ limits.bytes) }
    ensures inside { IfOk result (λ h. HEADER_BYTES + h.record_bytes ≤ length stream.now) }
{
    let size = stream.len() as u64;
    if size < u64::from(HEADER_BYTES) {
        return Err(TpiFault::Header { at: size });
    }
    let header = header_in(stream);
    judge(&header, size, limits.records, limits.bytes)?;
    Ok(header)
}

// The records of these bytes, which stand behind the header.
fn records_in(alloc: Global, bytes: &[u8]) -> Result<RecordList, TpiFault>
    requires { length bytes.now < 2 ^ 32 }
    ensures { Tells damage_in (λ list. list) result
        (records_in (length bytes.now) HEADER_BYTES bytes.now) }
{
    let mut list = RecordList::new(alloc);
    let mut rest = bytes;
    while !rest.is_empty() {
        let Some((record, behind)) = first_record(rest) else {
            let at = u64::from(HEADER_BYTES) + (bytes.len() - rest.len()) as u64;
            return Err(TpiFault::Record { at });
        };
        list.push(record)?;
        rest = behind;
    }
    Ok(list)
}

// The first record of these bytes and what stands behind it, if they begin with a record.
fn first_record(bytes: &[u8]) -> Option<(&[u8], &[u8])>
    ensures { MatchOption result (has_record bytes.now ≡ false)
        (λ x. (has_record bytes.now ≡ true) × (x.0.now ≡ take (size_of bytes.now) bytes.now)
        × (x.1.now ≡ drop (size_of bytes.now) bytes.now)) }
{
    if bytes.len() < 2 {
        return None;
    }
    let size = LittleEndian::read_u16(bytes) as usize + 2;
    if size < 4 || size > bytes.len() {
        return None;
    }
    Some(bytes.split_at(size))
}
