ghost use Rattle.std.specs.Prelude.{◌≤◌, ◌<◌, ◌^◌, length};

use super::*;
use srv_edge::{Limits, RecordList};
use std::alloc::{AllocError, Global};
use std::test::Fail;
use type_hash::{buffer, of_record};

// A constant of the type 74: the first record of a new file.
const RECORD: [u8; 12] = [0x0a, 0, 1, 0x10, 0x74, 0, 0, 0, 1, 0, 0xf2, 0xf1];

// The stream of types that holds it.
const STREAM: [u8; 68] = [
    0x0b, 0xca, 0x31, 0x01, 0x38, 0, 0, 0, 0, 0x10, 0, 0, 1, 0x10, 0, 0, 0x0c, 0, 0, 0, 5, 0, 0xff,
    0xff, 4, 0, 0, 0, 0xff, 0xff, 3, 0, 0, 0, 0, 0, 4, 0, 0, 0, 4, 0, 0, 0, 8, 0, 0, 0, 0x0c, 0, 0,
    0, 0, 0, 0, 0, 0x0a, 0, 1, 0x10, 0x74, 0, 0, 0, 1, 0, 0xf2, 0xf1,
];

// The hash stream of this one record.
fn hash_text_of(alloc: Global, record: &[u8], buckets: u32) -> Result<Vec<u8>, AllocError>
    requires some { 1 ≤ buckets }
    requires short { length record.now < 2 ^ 32 }
{
    let mut records = RecordList::new(alloc);
    records.push(record)?;
    let mut offsets = Vec::new(alloc);
    extend_offsets(&mut offsets, &records, 0, 0)?;
    let hashes = [of_record(record)];
    hash_text_from(alloc, &records, &hashes, buckets, &offsets, 0)
}

#[test]
fn first_record(rt: HostRuntime) -> Result<(), Fail> {
    let records = read_records(rt.alloc(), &STREAM, Limits::STANDARD)
        .ok()
        .ok_or("it is read")?;
    let h = records.header;
    assert_eq!(rt; header_bytes(&h)[..], STREAM[..56]);
    assert_eq!(rt; header_with(kept_of(&h), 1, 12, 8), h);
    assert_eq!(rt; h.hash_stream, 5);
    assert_eq!(rt; h.aux_stream, 0xffff);
    assert_eq!(rt; h.buckets, 0x3ffff);
    assert_eq!(rt; records.list.len(), 1);
    assert_eq!(rt; records.list.joined(), RECORD.as_slice());
    let text = hash_text_of(rt.alloc(), &RECORD, 0x3ffff)?;
    assert_eq!(rt; text.len(), 12);
    assert_eq!(rt; text[..4], (buffer(&RECORD) % 0x3ffff).to_le_bytes()[..]);
    assert_eq!(rt; text[4..], [0, 0x10, 0, 0, 0, 0, 0, 0][..]);
    Ok(())
}

fn fault_of(alloc: Global, stream: &[u8], limits: Limits) -> Option<TpiFault> {
    match read_records(alloc, stream, limits) {
        Ok(_) => None,
        Err(fault) => Some(fault),
    }
}

// The place of a byte that is changed, its new value, and the first fault then.
#[test]
fn first_faults(rt: HostRuntime) {
    use TpiFault::*;
    let cases = [
        (0, 0x0c, Some(Version { at: 0 })),
        (4, 0x39, Some(Header { at: 4 })),
        (24, 5, Some(Header { at: 24 })),
        (30, 0, None),
        (29, 0x0f, None),
        (30, 4, Some(Header { at: 28 })),
        (31, 1, Some(Header { at: 28 })),
        (8, 1, Some(Begin { at: 8 })),
        (13, 0x0f, Some(Count { at: 12 })),
        (14, 0x80, Some(Count { at: 12 })),
        (15, 0xff, Some(Count { at: 12 })),
        (16, 0x0d, Some(Bytes { at: 16 })),
        (19, 0xff, Some(Bytes { at: 16 })),
        (16, 0x0b, Some(Record { at: 56 })),
        (16, 1, Some(Record { at: 56 })),
        (56, 1, Some(Record { at: 56 })),
        (56, 0x0b, Some(Record { at: 56 })),
        (57, 0xff, Some(Record { at: 56 })),
        (56, 9, Some(Record { at: 67 })),
        (56, 4, Some(Record { at: 62 })),
        (12, 2, Some(Count { at: 12 })),
        (12, 0, Some(Count { at: 12 })),
        (20, 0xff, None),
        (32, 0xff, None),
    ];
    for (place, value, fault) in cases {
        let mut stream = STREAM;
        assert!(rt; place < 68);
        stream[place] = value;
        assert_eq!(rt;
            fault_of(rt.alloc(), &stream, Limits::STANDARD),
            fault,
            "at {place}"
        );
    }
}

// Streams that are cut, and limits that the stream passes.
#[test]
fn short_streams(rt: HostRuntime) {
    for len in [0, 55] {
        assert!(rt; len <= 68);
        let cut = STREAM.as_slice().split_at(len).0;
        let fault = fault_of(rt.alloc(), cut, Limits::STANDARD);
        assert_eq!(rt; fault, Some(TpiFault::Header { at: len as u64 }));
    }
    let cut = STREAM.as_slice().split_at(67).0;
    assert_eq!(rt;
        fault_of(rt.alloc(), cut, Limits::STANDARD),
        Some(TpiFault::Bytes { at: 16 })
    );
    let mut few = Limits::STANDARD;
    few.records = 0;
    assert_eq!(rt;
        fault_of(rt.alloc(), &STREAM, few),
        Some(TpiFault::Count { at: 12 })
    );
    let mut short = Limits::STANDARD;
    short.bytes = 11;
    assert_eq!(rt;
        fault_of(rt.alloc(), &STREAM, short),
        Some(TpiFault::Bytes { at: 16 })
    );
}
