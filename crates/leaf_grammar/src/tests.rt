use super::*;
use std::test::Fail;

// Records of every kind and member, written out by hand from the tables of the public format, and
// where their content ends or what is wrong with them and where.
static RECORDS: [(Space, &[u8], Result<usize, (u32, u8)>); 97] = [
    (Space::Types, b"\x06\x00\x0A\x00\x03\x00\x10\x01", Ok(8)),
    (
        Space::Types,
        b"\x06\x00\x0A\x00\x05\x00\x10\x01",
        Err((6, Malformed::SHORT)),
    ),
    (
        Space::Types,
        b"\x0A\x00\x01\x10\x74\x00\x00\x00\x01\x00\xF2\xF1",
        Ok(10),
    ),
    (
        Space::Types,
        b"\x06\x00\x01\x10\x74\x00\x00\x00",
        Err((8, Malformed::SHORT)),
    ),
    (
        Space::Types,
        b"\x0A\x00\x02\x10\x74\x00\x00\x00\x0C\x00\x01\x00",
        Ok(12),
    ),
    (
        Space::Types,
        b"\x12\x00\x02\x10\x74\x00\x00\x00\x4C\x00\x01\x00\x02\x10\x00\x00\x01\x00\xF2\xF1",
        Ok(18),
    ),
    (
        Space::Types,
        b"\x12\x00\x02\x10\x74\x00\x00\x00\x6C\x00\x01\x00\x02\x10\x00\x00\x01\x00\xF2\xF1",
        Ok(18),
    ),
    (
        Space::Types,
        b"\x0A\x00\x02\x10\x74\x00\x00\x00\x6C\x00\x01\x00",
        Err((12, Malformed::SHORT)),
    ),
    (
        Space::Types,
        b"\x0E\x00\x02\x10\x74\x00\x00\x00\x0C\x00\x01\x00\xF4\xF3\xF2\xF1",
        Err((12, Malformed::REST)),
    ),
    (
        Space::Types,
        b"\x0E\x00\x08\x10\x03\x00\x00\x00\x00\x00\x01\x00\x01\x10\x00\x00",
        Ok(16),
    ),
    (
        Space::Types,
        b"\x0A\x00\x08\x10\x03\x00\x00\x00\x00\x00\x01\x00",
        Err((12, Malformed::SHORT)),
    ),
    (
        Space::Types,
        b"\x1A\x00\x09\x10\x03\x00\x00\x00\x00\x10\x00\x00\x01\x10\x00\x00\x00\x00\x01\x00\x02\x10\x00\x00\x00\x00\x00\x00",
        Ok(28),
    ),
    (
        Space::Types,
        b"\x16\x00\x09\x10\x03\x00\x00\x00\x00\x10\x00\x00\x01\x10\x00\x00\x00\x00\x01\x00\x02\x10\x00\x00",
        Err((24, Malformed::SHORT)),
    ),
    (Space::Types, b"\x06\x00\x01\x12\x00\x00\x00\x00", Ok(8)),
    (
        Space::Types,
        b"\x0A\x00\x01\x12\xFF\xFF\xFF\xFF\x74\x00\x00\x00",
        Err((8, Malformed::SHORT)),
    ),
    (Space::Types, b"\x02\x00\x03\x12", Ok(4)),
    (
        Space::Types,
        b"\x0A\x00\x05\x12\x74\x00\x00\x00\x03\x00\xF2\xF1",
        Ok(10),
    ),
    (
        Space::Types,
        b"\x06\x00\x05\x12\x74\x00\x00\x00",
        Err((8, Malformed::SHORT)),
    ),
    (
        Space::Types,
        b"\x0A\x00\x06\x12\x03\x00\x00\x00\x74\x00\x00\x00",
        Ok(12),
    ),
    (
        Space::Types,
        b"\x0A\x00\x06\x12\x04\x00\x00\x00\x74\x00\x00\x00",
        Ok(12),
    ),
    (
        Space::Types,
        b"\x0E\x00\x06\x12\x10\x00\x00\x00\x74\x00\x00\x00\x08\x00\x00\x00",
        Ok(16),
    ),
    (
        Space::Types,
        b"\x0E\x00\x06\x12\x18\x00\x00\x00\x74\x00\x00\x00\x08\x00\x00\x00",
        Ok(16),
    ),
    (
        Space::Types,
        b"\x0A\x00\x06\x12\x10\x00\x00\x00\x74\x00\x00\x00",
        Err((12, Malformed::SHORT)),
    ),
    (
        Space::Types,
        b"\x0E\x00\x03\x15\x74\x00\x00\x00\x22\x00\x00\x00\x10\x00\x00\xF1",
        Ok(15),
    ),
    (
        Space::Types,
        b"\x0E\x00\x03\x15\x74\x00\x00\x00\x22\x00\x00\x00\x10\x00\x61\x62",
        Err((14, Malformed::TEXT)),
    ),
    (
        Space::Types,
        b"\x16\x00\x04\x15\x00\x00\x00\x00\x00\x00\x00\x00\x00\x00\x00\x00\x00\x00\x00\x00\x00\x00\x53\x00",
        Ok(24),
    ),
    (
        Space::Types,
        b"\x16\x00\x04\x15\x00\x00\x00\x00\x00\x00\x00\x00\x00\x00\x00\x00\x00\x00\x00\x00\x05\x80\x53\x00",
        Err((20, Malformed::NUMERIC)),
    ),
    (
        Space::Types,
        b"\x1E\x00\x05\x15\x01\x00\x00\x02\x00\x10\x00\x00\x00\x00\x00\x00\x00\x00\x00\x00\x04\x00\x53\x00\x2E\x3F\x41\x55\x53\x40\x40\x00",
        Ok(32),
    ),
    (
        Space::Types,
        b"\x16\x00\x05\x15\x01\x00\x00\x02\x00\x10\x00\x00\x00\x00\x00\x00\x00\x00\x00\x00\x04\x00\x53\x00",
        Err((24, Malformed::TEXT)),
    ),
    (
        Space::Types,
        b"\x16\x00\x19\x15\x00\x00\x80\x00\x00\x00\x00\x00\x00\x00\x00\x00\x00\x00\x00\x00\x00\x00\x49\x00",
        Ok(24),
    ),
    (
        Space::Types,
        b"\x0E\x00\x19\x15\x00\x00\x00\x00\x00\x00\x00\x00\x00\x00\x00\x00",
        Err((16, Malformed::SHORT)),
    ),
    (
        Space::Types,
        b"\x0E\x00\x06\x15\x00\x00\x00\x00\x00\x10\x00\x00\x08\x00\x55\x00",
        Ok(16),
    ),
    (
        Space::Types,
        b"\x0E\x00\x06\x15\x00\x00\x00\x00\x00\x10\x00\x00\x04\x80\x01\x00",
        Err((14, Malformed::SHORT)),
    ),
    (
        Space::Types,
        b"\x1E\x00\x04\x15\x01\x00\x00\x02\x00\x10\x00\x00\x01\x10\x00\x00\x02\x10\x00\x00\x04\x00\x43\x00\x2E\x3F\x41\x56\x43\x40\x40\x00",
        Ok(32),
    ),
    (
        Space::Types,
        b"\x1E\x00\x04\x15\x01\x00\x00\x02\x00\x10\x00\x00\x01\x10\x00\x00\x02\x10\x00\x00\x04\x00\x43\x00\x2E\x3F\x41\x56\x43\x40\x40\x40",
        Err((24, Malformed::TEXT)),
    ),
    (
        Space::Types,
        b"\x1E\x00\x19\x15\x01\x00\x00\x02\x00\x10\x00\x00\x01\x10\x00\x00\x02\x10\x00\x00\x04\x00\x49\x00\x2E\x3F\x41\x55\x49\x40\x40\x00",
        Ok(32),
    ),
    (
        Space::Types,
        b"\x1E\x00\x19\x15\x01\x00\x00\x02\x00\x10\x00\x00\x01\x10\x00\x00\x02\x10\x00\x00\x04\x00\x49\x00\x2E\x3F\x41\x55\x49\x40\x40\x40",
        Err((24, Malformed::TEXT)),
    ),
    (
        Space::Types,
        b"\x16\x00\x06\x15\x01\x00\x00\x02\x00\x10\x00\x00\x04\x00\x55\x00\x2E\x3F\x41\x54\x55\x40\x40\x00",
        Ok(24),
    ),
    (
        Space::Types,
        b"\x16\x00\x06\x15\x01\x00\x00\x02\x00\x10\x00\x00\x04\x00\x55\x00\x2E\x3F\x41\x54\x55\x40\x40\x40",
        Err((16, Malformed::TEXT)),
    ),
    (
        Space::Types,
        b"\x12\x00\x07\x15\x02\x00\x00\x00\x74\x00\x00\x00\x01\x10\x00\x00\x45\x00\xF2\xF1",
        Ok(18),
    ),
    (
        Space::Types,
        b"\x12\x00\x07\x15\x02\x00\x00\x02\x74\x00\x00\x00\x01\x10\x00\x00\x45\x00\xF2\xF1",
        Err((18, Malformed::TEXT)),
    ),
    (
        Space::Types,
        b"\x16\x00\x1D\x15\x00\x10\x00\x00\x00\x00\x00\x00\x00\x00\x00\x00\x03\x00\x00\x00\x66\x6F\x00\xF1",
        Ok(23),
    ),
    (
        Space::Types,
        b"\x16\x00\x1D\x15\x00\x10\x00\x00\x00\x00\x00\x00\x00\x00\x00\x00\x05\x00\x00\x00\x66\x6F\x00\xF1",
        Err((20, Malformed::SHORT)),
    ),
    (
        Space::Items,
        b"\x0E\x00\x01\x16\x00\x00\x00\x00\x00\x10\x00\x00\x66\x00\xF2\xF1",
        Ok(14),
    ),
    (
        Space::Items,
        b"\x0A\x00\x01\x16\x00\x00\x00\x00\x00\x10\x00\x00",
        Err((12, Malformed::TEXT)),
    ),
    (
        Space::Items,
        b"\x0E\x00\x02\x16\x01\x10\x00\x00\x00\x10\x00\x00\x66\x00\xF2\xF1",
        Ok(14),
    ),
    (
        Space::Items,
        b"\x06\x00\x02\x16\x01\x10\x00\x00",
        Err((8, Malformed::SHORT)),
    ),
    (
        Space::Items,
        b"\x0E\x00\x03\x16\x02\x00\x00\x10\x00\x00\x01\x10\x00\x00\xF2\xF1",
        Ok(14),
    ),
    (
        Space::Items,
        b"\x0E\x00\x03\x16\x03\x00\x00\x10\x00\x00\x01\x10\x00\x00\xF2\xF1",
        Err((6, Malformed::SHORT)),
    ),
    (
        Space::Items,
        b"\x0A\x00\x04\x16\x01\x00\x00\x00\x00\x10\x00\x00",
        Ok(12),
    ),
    (
        Space::Items,
        b"\x0A\x00\x04\x16\x02\x00\x00\x00\x00\x10\x00\x00",
        Err((8, Malformed::SHORT)),
    ),
    (
        Space::Items,
        b"\x0A\x00\x05\x16\x00\x00\x00\x00\x61\x00\xF2\xF1",
        Ok(10),
    ),
    (
        Space::Items,
        b"\x06\x00\x05\x16\x00\x00\x00\x00",
        Err((8, Malformed::TEXT)),
    ),
    (
        Space::Items,
        b"\x0E\x00\x06\x16\x00\x10\x00\x00\x01\x10\x00\x00\x0A\x00\x00\x00",
        Ok(16),
    ),
    (
        Space::Items,
        b"\x0A\x00\x06\x16\x00\x10\x00\x00\x01\x10\x00\x00",
        Err((12, Malformed::SHORT)),
    ),
    (
        Space::Items,
        b"\x12\x00\x07\x16\x00\x10\x00\x00\x01\x00\x00\x00\x0A\x00\x00\x00\x01\x00\xF2\xF1",
        Ok(18),
    ),
    (
        Space::Items,
        b"\x0E\x00\x07\x16\x00\x10\x00\x00\x01\x00\x00\x00\x0A\x00\x00\x00",
        Err((16, Malformed::SHORT)),
    ),
    (
        Space::Types,
        b"\x0A\x00\x05\x16\x00\x00\x00\x00\x61\x00\xF2\xF1",
        Err((2, Malformed::KIND)),
    ),
    (
        Space::Items,
        b"\x0A\x00\x01\x10\x74\x00\x00\x00\x01\x00\xF2\xF1",
        Err((2, Malformed::KIND)),
    ),
    (
        Space::Types,
        b"\x0A\x00\x15\x15\x74\x00\x00\x00\x01\x00\xF2\xF1",
        Err((2, Malformed::KIND)),
    ),
    (Space::Types, b"", Err((0, Malformed::LENGTH))),
    (Space::Types, b"\x02\x00\x03", Err((0, Malformed::LENGTH))),
    (
        Space::Types,
        b"\x04\x00\x01\x10\x74\x00",
        Err((0, Malformed::LENGTH)),
    ),
    (
        Space::Types,
        b"\x0A\x00\x01\x10\x74\x00\x00\x00",
        Err((0, Malformed::LENGTH)),
    ),
    (
        Space::Types,
        b"\x0E\x00\x03\x12\x00\x14\x03\x00\x00\x10\x00\x00\x00\x00\xF2\xF1",
        Ok(16),
    ),
    (
        Space::Types,
        b"\x0E\x00\x03\x12\x00\x14\x03\x00\x00\x10\x00\x00\x05\x80\xF2\xF1",
        Err((12, Malformed::NUMERIC)),
    ),
    (
        Space::Types,
        b"\x0E\x00\x03\x12\x1A\x15\x03\x00\x00\x10\x00\x00\x00\x00\xF2\xF1",
        Ok(16),
    ),
    (
        Space::Types,
        b"\x06\x00\x03\x12\x1A\x15\x03\x00",
        Err((8, Malformed::SHORT)),
    ),
    (
        Space::Types,
        b"\x12\x00\x03\x12\x01\x14\x03\x00\x00\x10\x00\x00\x01\x10\x00\x00\x00\x00\x01\x00",
        Ok(20),
    ),
    (
        Space::Types,
        b"\x0E\x00\x03\x12\x01\x14\x03\x00\x00\x10\x00\x00\x01\x10\x00\x00",
        Err((16, Malformed::SHORT)),
    ),
    (
        Space::Types,
        b"\x12\x00\x03\x12\x02\x14\x03\x00\x00\x10\x00\x00\x01\x10\x00\x00\x00\x00\x01\x00",
        Ok(20),
    ),
    (
        Space::Types,
        b"\x12\x00\x03\x12\x02\x14\x03\x00\x00\x10\x00\x00\x01\x10\x00\x00\x00\x00\x05\x80",
        Err((18, Malformed::NUMERIC)),
    ),
    (
        Space::Types,
        b"\x0A\x00\x03\x12\x04\x14\x00\x00\x05\x10\x00\x00",
        Ok(12),
    ),
    (
        Space::Types,
        b"\x06\x00\x03\x12\x04\x14\x00\x00",
        Err((8, Malformed::SHORT)),
    ),
    (
        Space::Types,
        b"\x0A\x00\x03\x12\x09\x14\x00\x00\x05\x10\x00\x00",
        Ok(12),
    ),
    (
        Space::Types,
        b"\x06\x00\x03\x12\x09\x14\x00\x00",
        Err((8, Malformed::SHORT)),
    ),
    (
        Space::Types,
        b"\x0A\x00\x03\x12\x02\x15\x03\x00\x01\x00\x41\x00",
        Ok(12),
    ),
    (
        Space::Types,
        b"\x0A\x00\x03\x12\x02\x15\x03\x00\x01\x00\x41\x42",
        Err((10, Malformed::TEXT)),
    ),
    (
        Space::Types,
        b"\x0E\x00\x03\x12\x0D\x15\x03\x00\x74\x00\x00\x00\x00\x00\x78\x00",
        Ok(16),
    ),
    (
        Space::Types,
        b"\x0E\x00\x03\x12\x0D\x15\x03\x00\x74\x00\x00\x00\x05\x80\x61\x00",
        Err((12, Malformed::NUMERIC)),
    ),
    (
        Space::Types,
        b"\x0E\x00\x03\x12\x0E\x15\x03\x00\x74\x00\x00\x00\x73\x00\xF2\xF1",
        Ok(16),
    ),
    (
        Space::Types,
        b"\x0A\x00\x03\x12\x0E\x15\x03\x00\x74\x00\x00\x00",
        Err((12, Malformed::TEXT)),
    ),
    (
        Space::Types,
        b"\x0E\x00\x03\x12\x0F\x15\x02\x00\x01\x10\x00\x00\x6D\x00\xF2\xF1",
        Ok(16),
    ),
    (
        Space::Types,
        b"\x0E\x00\x03\x12\x0F\x15\x02\x00\x01\x10\x00\x00\x6D\x6D\x6D\x6D",
        Err((12, Malformed::TEXT)),
    ),
    (
        Space::Types,
        b"\x0E\x00\x03\x12\x10\x15\x00\x00\x01\x10\x00\x00\x6E\x00\xF2\xF1",
        Ok(16),
    ),
    (
        Space::Types,
        b"\x06\x00\x03\x12\x10\x15\x00\x00",
        Err((8, Malformed::SHORT)),
    ),
    (
        Space::Types,
        b"\x0E\x00\x03\x12\x11\x15\x03\x00\x01\x10\x00\x00\x6D\x00\xF2\xF1",
        Ok(16),
    ),
    (
        Space::Types,
        b"\x12\x00\x03\x12\x11\x15\x13\x00\x01\x10\x00\x00\x08\x00\x00\x00\x6D\x00\xF2\xF1",
        Ok(20),
    ),
    (
        Space::Types,
        b"\x0A\x00\x03\x12\x11\x15\x13\x00\x01\x10\x00\x00",
        Err((12, Malformed::SHORT)),
    ),
    (
        Space::Types,
        b"\x0A\x00\x03\x12\x0C\x15\x00\x00\x74\x00\x00\x00",
        Err((4, Malformed::MEMBER)),
    ),
    (
        Space::Types,
        b"\x12\x00\x03\x12\x0D\x15\x03\x00\x74\x00\x00\x00\x00\x00\x61\x62\x00\xF0\x00\x00",
        Err((17, Malformed::MEMBER)),
    ),
    (
        Space::Types,
        b"\x12\x00\x03\x12\x0D\x15\x03\x00\x74\x00\x00\x00\x00\x00\x61\x62\x00\xF3\xF2\xF1",
        Ok(20),
    ),
    (Space::Types, b"\x06\x00\x03\x12\xF4\xF3\xF2\xF1", Ok(8)),
    (
        Space::Types,
        b"\x06\x00\x03\x12\xF5\x00\x00\x00",
        Err((4, Malformed::SHORT)),
    ),
    (
        Space::Types,
        b"\x0E\x00\x03\x12\x02\x15\x03\x00\x01\x00\x41\x42\x43\x44\x00\x15",
        Err((15, Malformed::SHORT)),
    ),
    (
        Space::Types,
        b"\x0E\x00\x03\x12\x02\x15\x03\x00\x01\x00\x41\x42\x43\x44\x00\xF0",
        Err((15, Malformed::MEMBER)),
    ),
    (
        Space::Types,
        b"\x0E\x00\x03\x12\xF1\x02\x15\x03\x00\x01\x00\x41\x42\x43\x00\xF1",
        Ok(16),
    ),
];

#[test]
fn every_kind_and_member(rt: HostRuntime) {
    for (space, bytes, want) in &RECORDS {
        let got = check(*space, bytes);
        assert_eq!(rt;
            got.map(|leaf| leaf.end).map_err(|bad| (bad.at, bad.what)),
            *want,
            "{bytes:?}"
        );
    }
}

// The longest record, one that is longer by a word, and a field list of 60,000 bytes.
#[test]
fn long_records(rt: HostRuntime) -> Result<(), Fail> {
    let mut bytes = b"\xFE\xFF\x01\x12\xFE\x3F\x00\x00".to_vec(rt.alloc())?;
    for _ in 0..16_382 {
        bytes.extend_from_slice(b"\x74\x00\x00\x00")?;
    }
    let longest = check(Space::Types, &bytes);
    assert_eq!(rt;
        longest,
        Ok(Leaf {
            kind: 0x1201,
            end: 65_536
        })
    );
    bytes.extend_from_slice(b"\x74\x00\x00\x00")?;
    assert_eq!(rt;
        check(Space::Types, &bytes),
        Err(Malformed {
            at: 0,
            what: Malformed::LENGTH
        })
    );

    let mut list = b"\x5E\xEA\x03\x12".to_vec(rt.alloc())?;
    for _ in 0..7499 {
        list.extend_from_slice(b"\x04\x14\x00\x00\x05\x10\x00\x00")?;
    }
    list.extend_from_slice(b"\xF4\xF3\xF2\xF1")?;
    assert_eq!(rt;
        check(Space::Types, &list),
        Ok(Leaf {
            kind: 0x1203,
            end: 60_000
        })
    );
    Ok(())
}

// What stands in a tag: whether it is a forward reference and within a function, its name, its
// unique name.
type Stands = (bool, bool, &'static [u8], Option<&'static [u8]>);

static TAGS: [(&[u8], Option<Stands>); 9] = [
    // a class with both texts
    (
        b"\x1E\x00\x04\x15\x01\x00\x00\x02\x00\x10\x00\x00\x00\x00\x00\x00\x00\x00\x00\x00\x04\x00\x43\x00\x2E\x3F\x41\x56\x43\x40\x40\x00",
        Some((false, false, b"C", Some(b".?AVC@@"))),
    ),
    // a structure with a name alone, within a function
    (
        b"\x16\x00\x05\x15\x01\x00\x00\x01\x00\x10\x00\x00\x00\x00\x00\x00\x00\x00\x00\x00\x04\x00\x53\x00",
        Some((false, true, b"S", None)),
    ),
    // an interface that is a forward reference, with an empty unique name
    (
        b"\x1A\x00\x19\x15\x01\x00\x80\x02\x00\x10\x00\x00\x00\x00\x00\x00\x00\x00\x00\x00\x04\x00\x49\x00\x00\xF3\xF2\xF1",
        Some((true, false, b"I", Some(b""))),
    ),
    // a union with a long size and an empty name
    (
        b"\x1A\x00\x06\x15\x01\x00\x00\x03\x00\x10\x00\x00\x04\x80\x01\x02\x03\x04\x00\x2E\x3F\x41\x54\x55\x40\x40\x00\xF1",
        Some((false, true, b"", Some(b".?ATU@@"))),
    ),
    // an enum, with all other bits set
    (
        b"\x12\x00\x07\x15\x01\x00\x7F\xFC\x74\x00\x00\x00\x00\x10\x00\x00\x45\x00\xF2\xF1",
        Some((false, false, b"E", None)),
    ),
    // a modifier
    (b"\x0A\x00\x01\x10\x74\x00\x00\x00\x01\x00\xF2\xF1", None),
    // an item
    (b"\x0A\x00\x05\x16\x00\x00\x00\x00\x61\x00\xF2\xF1", None),
    // a structure that is no leaf
    (
        b"\x1E\x00\x05\x15\x01\x00\x00\x02\x00\x10\x00\x00\x00\x00\x00\x00\x00\x00\x00\x00\x04\x00\x53\x53\x53\x53\x53\x53\x53\x00\xF2\xF1",
        None,
    ),
    // no record
    (b"\x05", None),
];

#[test]
fn tags(rt: HostRuntime) {
    for (bytes, want) in &TAGS {
        let got = tag_of(bytes);
        assert_eq!(rt; got.is_some(), want.is_some(), "{bytes:?}");
        if let (Some(tag), Some((forward, scoped, name, unique_name))) = (got, want) {
            assert_eq!(rt;
                (tag.is_forward, tag.is_scoped),
                (*forward, *scoped),
                "{bytes:?}"
            );
            assert!(rt; tag.name == *name, "{bytes:?}");
            assert_eq!(rt;
                tag.unique_name.is_some(),
                unique_name.is_some(),
                "{bytes:?}"
            );
            if let (Some(got), Some(want)) = (tag.unique_name, unique_name) {
                assert!(rt; got == *want, "{bytes:?}");
            }
        }
    }
}
