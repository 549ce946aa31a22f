use super::*;

// The stream of a new file, with the signature 04 03 02 01 and a GUID of sixteen bytes.
const NEW: [u8; 75] = [
    0x94, 0x2e, 0x31, 0x01, 4, 3, 2, 1, 1, 0, 0, 0, 10, 11, 12, 13, 14, 15, 16, 17, 18, 19, 20, 21,
    22, 23, 24, 25, 7, 0, 0, 0, 0x2f, 0x6e, 0x61, 0x6d, 0x65, 0x73, 0, 1, 0, 0, 0, 1, 0, 0, 0, 1,
    0, 0, 0, 1, 0, 0, 0, 0, 0, 0, 0, 0, 0, 0, 0, 7, 0, 0, 0, 0, 0, 0, 0, 0xdc, 0x51, 0x33, 0x01,
];

#[test]
fn new_file(rt: HostRuntime) {
    let guid = [
        10, 11, 12, 13, 14, 15, 16, 17, 18, 19, 20, 21, 22, 23, 24, 25,
    ];
    let mut info = new_info(guid, 0x0102_0304);
    assert_eq!(rt; info[..], NEW[..]);
    assert_eq!(rt; find_stream(&info, b"/names"), Ok(7));
    assert_eq!(rt; age(&info), Some(1));
    with_age(&mut info, 0x0403_0201);
    assert_eq!(rt; age(&info), Some(0x0403_0201));
    assert_eq!(rt; info[8..12], [1, 2, 3, 4][..]);
    assert_eq!(rt; info[..8], NEW[..8]);
    assert_eq!(rt; info[12..], NEW[12..]);
}

// Where a stream is cut, the first field that does not fit. What stands behind the pairs may be
// cut.
#[test]
fn cut_short(rt: HostRuntime) {
    let cases = [
        (0, Some(0)),
        (3, Some(0)),
        (7, Some(4)),
        (11, Some(8)),
        (27, Some(12)),
        (31, Some(28)),
        (38, Some(32)),
        (42, Some(39)),
        (46, Some(43)),
        (50, Some(47)),
        (54, Some(51)),
        (58, Some(55)),
        (62, Some(59)),
        (66, Some(63)),
        (67, None),
        (70, None),
    ];
    for (len, at) in cases {
        assert!(rt; len <= 75);
        let cut = NEW.as_slice().split_at(len).0;
        let want = match at {
            Some(at) => Err(InfoFault::Short { at }),
            None => Ok(7),
        };
        assert_eq!(rt; find_stream(cut, b"/names"), want, "{len} bytes");
    }
    assert_eq!(rt; age(NEW.as_slice().split_at(11).0), None);
}

// One byte is changed: a number of words near 2^32, a pair more that is not there, a text that does
// not end, a place outside the texts, another name.
#[test]
fn changed(rt: HostRuntime) {
    use InfoFault::{NoName, Short};
    let cases = [
        (31, 0xff, Err(Short { at: 32 })),
        (50, 0xff, Err(Short { at: 75 })),
        (58, 0xff, Err(Short { at: 75 })),
        (54, 0x80, Ok(7)),
        (51, 3, Ok(7)),
        (51, 7, Err(Short { at: 75 })),
        (51, 0, Err(NoName)),
        (38, 0x73, Err(NoName)),
        (59, 7, Err(NoName)),
        (62, 0xff, Err(NoName)),
        (36, 0x45, Err(NoName)),
        (63, 9, Ok(9)),
    ];
    for (place, value, want) in cases {
        let mut info = NEW;
        assert!(rt; place < 75);
        info[place] = value;
        assert_eq!(rt; find_stream(&info, b"/names"), want, "at {place}");
    }
}
