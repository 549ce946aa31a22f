ghost use Rattle.std.specs.Prelude.{◌≡◌, ◌≤◌, ◌+◌, ◌*◌, drop, length, OnOk};
ghost use Rattle.byteorder.specs.Endian.{little_number};
ghost use Rattle.msf_blocks.specs.Judging.{first_damage, unless};
ghost use Rattle.srv_edge.specs.declared.limit.TheConstants.{MOST_RECORDS};
ghost use Rattle.tpi_stream.specs.HeaderText.{back_text, front_text, header_in, header_text};
ghost use Rattle.tpi_stream.specs.Reading.{header_fault};
ghost use Rattle.tpi_stream.specs.Written.{header_with, kept_of};
ghost use Rattle.tpi_stream.specs.declared.header.TheConstants.{HEADER_BYTES};

use crate::fault::TpiFault;
use byteorder::{ByteOrder, LittleEndian};

/// The version of the format.
pub const VERSION: u32 = 20_040_203;

/// The bytes of a header.
pub const HEADER_BYTES: u32 = 56;

/// The index of the first record.
pub const FIRST_INDEX: u32 = 0x1000;

/// The bytes of a hash.
pub const KEY_BYTES: u32 = 4;

/// The fewest buckets.
pub const LEAST_BUCKETS: u32 = 0x1000;

/// The most buckets.
pub const MOST_BUCKETS: u32 = 0x40000;

/// The numbers in front of the records. docs/FORMAT.md gives their places.
#[derive(Clone, Copy, Debug, PartialEq, Eq)]
pub struct Header {
    pub version: u32,
    /// The bytes of the header itself.
    pub header_size: u32,
    /// The index of the first record.
    pub begin: u32,
    /// The index behind that of the last record.
    pub end: u32,
    /// The bytes of all records.
    pub record_bytes: u32,
    /// The number of the hash stream.
    pub hash_stream: u16,
    /// The number of a further hash stream, or FFFF.
    pub aux_stream: u16,
    /// The bytes of a hash.
    pub key_size: u32,
    pub buckets: u32,
    /// Where the hashes begin in the hash stream, and their bytes.
    pub values_at: u32,
    pub values_len: u32,
    /// Where the index offsets begin in the hash stream, and their bytes.
    pub offsets_at: u32,
    pub offsets_len: u32,
    /// Where the adjusters begin in the hash stream, and their bytes.
    pub adjusters_at: u32,
    pub adjusters_len: u32,
}

/// The numbers of a header that a stream keeps, whatever records are written to it.
#[derive(Clone, Copy, Debug, PartialEq, Eq)]
pub struct Kept {
    /// The number of the hash stream.
    pub hash_stream: u16,
    /// The number of a further hash stream, or FFFF.
    pub aux_stream: u16,
    pub buckets: u32,
}

/// The numbers of a header that are kept.
pub fn kept_of(h: &Header) -> Kept
    ensures { result ≡ kept_of h.now }
{
    Kept {
        hash_stream: h.hash_stream,
        aux_stream: h.aux_stream,
        buckets: h.buckets,
    }
}

/// The header of a stream that is written, of so many records and bytes, where the index offsets
/// of the hash stream have so many bytes.
pub fn header_with(kept: Kept, count: u32, bytes: u32, offsets: u32) -> Header
    requires count { count ≤ MOST_RECORDS }
    requires offsets { offsets ≤ 8 * count }
    ensures { result ≡ header_with kept count bytes offsets }
{
    let values = KEY_BYTES * count;
    Header {
        version: VERSION,
        header_size: HEADER_BYTES,
        begin: FIRST_INDEX,
        end: FIRST_INDEX + count,
        record_bytes: bytes,
        hash_stream: kept.hash_stream,
        aux_stream: kept.aux_stream,
        key_size: KEY_BYTES,
        buckets: kept.buckets,
        values_at: 0,
        values_len: values,
        offsets_at: values,
        offsets_len: offsets,
        adjusters_at: values + offsets,
        adjusters_len: 0,
    }
}

/// The text of a header.
#[tactic(auto, unfolding(crate::specs::HeaderText::header_text))]
pub fn header_bytes(h: &Header) -> [u8; 56]
    ensures { result ≡ header_text h.now }
{
    let mut text = [0; 56];
    text[..24].copy_from_slice(&front_bytes(h));
    text[24..].copy_from_slice(&back_bytes(h));
    text
}

// The seven numbers before the size of a hash.
fn front_bytes(h: &Header) -> [u8; 24]
    ensures { result ≡ front_text h.now }
{
    let mut text = [0; 24];
    LittleEndian::write_u32(&mut text[..4], h.version);
    LittleEndian::write_u32(&mut text[4..8], h.header_size);
    LittleEndian::write_u32(&mut text[8..12], h.begin);
    LittleEndian::write_u32(&mut text[12..16], h.end);
    LittleEndian::write_u32(&mut text[16..20], h.record_bytes);
    LittleEndian::write_u16(&mut text[20..22], h.hash_stream);
    LittleEndian::write_u16(&mut text[22..], h.aux_stream);
    text
}

// The eight numbers from the size of a hash on.
fn back_bytes(h: &Header) -> [u8; 32]
    ensures { result ≡ back_text h.now }
{
    let mut text = [0; 32];
    LittleEndian::write_u32(&mut text[..4], h.key_size);
    LittleEndian::write_u32(&mut text[4..8], h.buckets);
    LittleEndian::write_u32(&mut text[8..12], h.values_at);
    LittleEndian::write_u32(&mut text[12..16], h.values_len);
    LittleEndian::write_u32(&mut text[16..20], h.offsets_at);
    LittleEndian::write_u32(&mut text[20..24], h.offsets_len);
    LittleEndian::write_u32(&mut text[24..28], h.adjusters_at);
    LittleEndian::write_u32(&mut text[28..], h.adjusters_len);
    text
}

/// The numbers that the first bytes of a stream stand for.
#[tactic(auto, unfolding(crate::specs::HeaderText::header_in))]
pub(crate) fn header_in(stream: &[u8]) -> Header
    requires { 56 ≤ length stream.now }
    ensures { result ≡ header_in stream.now }
{
    Header {
        version: word_at(stream, 0),
        header_size: word_at(stream, 4),
        begin: word_at(stream, 8),
        end: word_at(stream, 12),
        record_bytes: word_at(stream, 16),
        hash_stream: half_at(stream, 20),
        aux_stream: half_at(stream, 22),
        key_size: word_at(stream, 24),
        buckets: word_at(stream, 28),
        values_at: word_at(stream, 32),
        values_len: word_at(stream, 36),
        offsets_at: word_at(stream, 40),
        offsets_len: word_at(stream, 44),
        adjusters_at: word_at(stream, 48),
        adjusters_len: word_at(stream, 52),
    }
}

/// The tests of a header in their order, in a stream of so many bytes.
#[tactic(auto, unfolding(crate::specs::Reading::header_fault))]
pub(crate) fn judge(h: &Header, size: u64, max_records: u32, max_bytes: u32) -> Result<(), TpiFault>
    ensures exact { result ≡ unless (header_fault h.now size max_records max_bytes) tt }
    ensures order { OnOk result (h.now.begin ≤ h.now.end) }
    ensures few { OnOk result (h.now.record_bytes ≤ max_bytes) }
    ensures inside { OnOk result (HEADER_BYTES + h.now.record_bytes ≤ size) }
{
    if h.version != VERSION {
        return Err(TpiFault::Version { at: 0 });
    }
    if h.header_size != HEADER_BYTES {
        return Err(TpiFault::Header { at: 4 });
    }
    if h.key_size != KEY_BYTES {
        return Err(TpiFault::Header { at: 24 });
    }
    if h.buckets < LEAST_BUCKETS || h.buckets > MOST_BUCKETS {
        return Err(TpiFault::Header { at: 28 });
    }
    if h.begin != FIRST_INDEX {
        return Err(TpiFault::Begin { at: 8 });
    }
    if h.end < h.begin || h.end - h.begin > max_records {
        return Err(TpiFault::Count { at: 12 });
    }
    if h.record_bytes > max_bytes || u64::from(HEADER_BYTES) + u64::from(h.record_bytes) > size {
        return Err(TpiFault::Bytes { at: 16 });
    }
    Ok(())
}

// The number of four bytes at a place.
fn word_at(stream: &[u8], at: usize) -> u32
    requires { at + 4 ≤ length stream.now }
    ensures { result ≡ little_number 4 (drop at stream.now) }
{
    LittleEndian::read_u32(&stream[at..])
}

// The number of two bytes at a place.
fn half_at(stream: &[u8], at: usize) -> u16
    requires { at + 2 ≤ length stream.now }
    ensures { result ≡ little_number 2 (drop at stream.now) }
{
    LittleEndian::read_u16(&stream[at..])
}
