use super::*;
use std::test::Fail;

// Words with their callers and deeds, one of each kind and of each table, limit and end.
static WORDS: [(u64, u8, Deed); 20] = [
    (
        0x0101000000001000,
        1,
        Deed::Added {
            table: TableKind::Types,
            at: 0x1000,
        },
    ),
    (
        0x2A02000000001001,
        0x2A,
        Deed::Added {
            table: TableKind::Items,
            at: 0x1001,
        },
    ),
    (
        0x0003000000000003,
        0,
        Deed::Added {
            table: TableKind::Names,
            at: 3,
        },
    ),
    (
        0xFF04000000000074,
        255,
        Deed::Asked {
            table: TableKind::Types,
            at: 0x74,
        },
    ),
    (
        0x0005000000001002,
        0,
        Deed::Asked {
            table: TableKind::Items,
            at: 0x1002,
        },
    ),
    (
        0x00060000FFFFFFFF,
        0,
        Deed::Asked {
            table: TableKind::Names,
            at: 0xFFFF_FFFF,
        },
    ),
    (0x0207000000000000, 2, Deed::Counted),
    (
        0x0008000000001000,
        0,
        Deed::NotGiven {
            index: 0x1000,
            space: TableKind::Types,
            table: TableKind::Types,
        },
    ),
    (
        0x0008000400001000,
        0,
        Deed::NotGiven {
            index: 0x1000,
            space: TableKind::Types,
            table: TableKind::Items,
        },
    ),
    (
        0x0308000100001005,
        3,
        Deed::NotGiven {
            index: 0x1005,
            space: TableKind::Items,
            table: TableKind::Types,
        },
    ),
    (
        0x0008000500001005,
        0,
        Deed::NotGiven {
            index: 0x1005,
            space: TableKind::Items,
            table: TableKind::Items,
        },
    ),
    (
        0x000900010000000C,
        0,
        Deed::Full {
            length: 12,
            limit: Limit::Records,
            table: TableKind::Types,
        },
    ),
    (
        0x000900060000000C,
        0,
        Deed::Full {
            length: 12,
            limit: Limit::Bytes,
            table: TableKind::Items,
        },
    ),
    (
        0x0009000B0000FFFF,
        0,
        Deed::Full {
            length: 65_535,
            limit: Limit::Names,
            table: TableKind::Names,
        },
    ),
    (0x000A000000000002, 0, Deed::Began { number: 2 }),
    (
        0x7F0A0000FFFFFFFF,
        127,
        Deed::Began {
            number: 0xFFFF_FFFF,
        },
    ),
    (
        0x010B000100000002,
        1,
        Deed::Ended {
            number: 2,
            acknowledged: true,
        },
    ),
    (
        0x010B000000000002,
        1,
        Deed::Ended {
            number: 2,
            acknowledged: false,
        },
    ),
    (0x020C000000000002, 2, Deed::Underway { number: 2 }),
    (
        0x0003000000000000,
        0,
        Deed::Added {
            table: TableKind::Names,
            at: 0,
        },
    ),
];

#[test]
fn words_both_ways(rt: HostRuntime) {
    for (word, caller, deed) in &WORDS {
        assert_eq!(rt; word_of(*caller, *deed), *word, "{deed:?}");
        assert_eq!(rt; deed_of(*word), Some(*deed), "{word}");
        assert_eq!(rt; caller_of(*word), *caller, "{word}");
    }
}

// A kind that there is not; a bit where there is to be none; numbers of no table and no limit.
#[test]
fn words_of_no_deed(rt: HostRuntime) {
    for word in [
        0x0000000000000000,
        0x000D000000000000,
        0x0081000000001000,
        0x0001000100001000,
        0x0007000000000001,
        0x0007000100000000,
        0x0008000300001000,
        0x0008000C00001000,
        0x0008001000001000,
        0x000900040000000C,
        0x0009000D0000000C,
        0x000A000100000002,
        0x000B000200000002,
        0x000C800000000002,
    ] {
        assert_eq!(rt; deed_of(word), None, "{word}");
    }
}

// Each word stands at its place, over three pages and a bit, and nothing stands behind the last.
#[test]
fn words_over_pages(rt: HostRuntime) -> Result<(), Fail> {
    let mut journal = Journal::new(rt.alloc());
    assert!(rt; journal.is_empty());
    assert_eq!(rt; journal.spare(), 0);
    assert_eq!(rt; journal.entry(0), None);
    for i in 0..3_100u32 {
        journal.reserve(1)?;
        assert!(rt; journal.spare() > 0);
        assert_eq!(rt; journal.len(), i);
        journal.push(u64::from(i) * 3);
    }
    journal.reserve(5_000)?;
    assert!(rt; journal.spare() >= 5_000);
    assert_eq!(rt; journal.len(), 3_100);
    assert!(rt; !journal.is_empty());
    for i in [0u32, 1, 1_023, 1_024, 1_025, 2_047, 2_048, 3_099] {
        assert_eq!(rt; journal.entry(i), Some(u64::from(i) * 3), "{i}");
    }
    for i in [3_100, 3_101, 4_096, u32::MAX] {
        assert_eq!(rt; journal.entry(i), None, "{i}");
    }
    Ok(())
}

// No room is asked for where it is there: pushes take it up one by one.
#[test]
fn room_is_used_up(rt: HostRuntime) -> Result<(), Fail> {
    let mut journal = Journal::new(rt.alloc());
    journal.reserve(2_500)?;
    let spare = journal.spare();
    assert!(rt; spare >= 2_500);
    for i in 0..2_500u32 {
        assert!(rt; journal.spare() > 0);
        assert_eq!(rt; journal.len(), i);
        journal.push(u64::from(i));
        assert!(rt; journal.spare() >= spare - 1 - i);
    }
    assert_eq!(rt; journal.len(), 2_500);
    Ok(())
}
