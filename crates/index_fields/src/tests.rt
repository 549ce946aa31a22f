use super::*;
use leaf_grammar::{Space, check};

const TYPES: Space = Space::Types;

const ITEMS: Space = Space::Items;

// The fields that a visitor was shown, in an array that it borrows.
#[derive(Drop)]
struct Listed<'a> {
    fields: &'a mut [(Space, u32, u32)],
    count: usize,
}

impl Visit for Listed<'_> {
    ghost use Rattle.std.specs.Prelude.{⊤};

    ghost does = { λ _ _ _. ⊤ };

    fn field(&mut self, space: Space, at: u32, value: u32) {
        if self.count < self.fields.len() {
            self.fields[self.count] = (space, at, value);
            self.count += 1;
        }
    }
}

// Leaves and their index fields, written out by hand from the tables of the public format. First
// those that the second test cites, then one of each kind and each member, in which all that stands
// beside an index has a byte from A0 on.
static LEAVES: [(Space, &[u8], &[(Space, u32, u32)]); 48] = [
    // a pointer to a member
    (
        TYPES,
        b"\x12\x00\x02\x10\x74\x00\x00\x00\x4C\x00\x01\x00\x02\x10\x00\x00\x01\x00\xF2\xF1",
        &[(TYPES, 4, 0x74), (TYPES, 12, 0x1002)],
    ),
    // a plain pointer
    (
        TYPES,
        b"\x0A\x00\x02\x10\x74\x00\x00\x00\x0C\x00\x01\x00",
        &[(TYPES, 4, 0x74)],
    ),
    // an argument list
    (
        TYPES,
        b"\x0E\x00\x01\x12\x02\x00\x00\x00\x74\x00\x00\x00\x00\x10\x00\x00",
        &[(TYPES, 8, 0x74), (TYPES, 12, 0x1000)],
    ),
    // a field list with pads before and between its members
    (
        TYPES,
        b"\x1E\x00\x03\x12\xF1\x04\x14\x00\x00\x05\x10\x00\x00\xF3\x00\x00\x0D\x15\x03\x00\x06\x10\x00\x00\x00\x00\x61\x00\xF4\xF3\xF2\xF1",
        &[(TYPES, 9, 0x1005), (TYPES, 20, 0x1006)],
    ),
    // a method list: a plain method, and one that introduces a virtual one
    (
        TYPES,
        b"\x16\x00\x06\x12\x03\x00\x00\x00\x01\x10\x00\x00\x10\x00\x00\x00\x02\x10\x00\x00\x08\x00\x00\x00",
        &[(TYPES, 8, 0x1001), (TYPES, 16, 0x1002)],
    ),
    // a function's name, which is an item
    (
        ITEMS,
        b"\x0E\x00\x01\x16\x00\x00\x00\x00\x00\x10\x00\x00\x66\x00\xF2\xF1",
        &[(ITEMS, 4, 0), (TYPES, 8, 0x1000)],
    ),
    // items of a list
    (
        ITEMS,
        b"\x0E\x00\x03\x16\x02\x00\x00\x10\x00\x00\x01\x10\x00\x00\xF2\xF1",
        &[(ITEMS, 6, 0x1000), (ITEMS, 10, 0x1001)],
    ),
    // a list of half bytes
    (TYPES, b"\x06\x00\x0A\x00\x03\x00\x10\x01", &[]),
    // LF_VTSHAPE
    (TYPES, b"\x06\x00\x0A\x00\x03\x00\x10\x01", &[]),
    // LF_MODIFIER
    (
        TYPES,
        b"\x0A\x00\x01\x10\x81\x10\x20\x01\xB1\xB2\xF2\xF1",
        &[(TYPES, 4, 0x01201081)],
    ),
    // LF_POINTER: plain, to a data member, to a member function
    (
        TYPES,
        b"\x0A\x00\x02\x10\x82\x10\x20\x02\x0C\x00\x01\x00",
        &[(TYPES, 4, 0x02201082)],
    ),
    (
        TYPES,
        b"\x12\x00\x02\x10\x83\x10\x20\x03\x4C\x00\x01\x00\x84\x10\x20\x04\xB1\xB2\xF2\xF1",
        &[(TYPES, 4, 0x03201083), (TYPES, 12, 0x04201084)],
    ),
    (
        TYPES,
        b"\x12\x00\x02\x10\x85\x10\x20\x05\x6C\x00\x01\x00\x86\x10\x20\x06\xB1\xB2\xF2\xF1",
        &[(TYPES, 4, 0x05201085), (TYPES, 12, 0x06201086)],
    ),
    // LF_PROCEDURE
    (
        TYPES,
        b"\x0E\x00\x08\x10\x87\x10\x20\x07\xA1\xA1\xB1\xB2\x88\x10\x20\x08",
        &[(TYPES, 4, 0x07201087), (TYPES, 12, 0x08201088)],
    ),
    // LF_MFUNCTION
    (
        TYPES,
        b"\x1A\x00\x09\x10\x89\x10\x20\x09\x8A\x10\x20\x0A\x8B\x10\x20\x0B\xA1\xA1\xB1\xB2\x8C\x10\x20\x0C\xC1\xC2\xC3\xC4",
        &[
            (TYPES, 4, 0x09201089),
            (TYPES, 8, 0x0A20108A),
            (TYPES, 12, 0x0B20108B),
            (TYPES, 20, 0x0C20108C),
        ],
    ),
    // LF_ARGLIST
    (
        TYPES,
        b"\x12\x00\x01\x12\x03\x00\x00\x00\x8D\x10\x20\x0D\x8E\x10\x20\x0E\x8F\x10\x20\x0F",
        &[
            (TYPES, 8, 0x0D20108D),
            (TYPES, 12, 0x0E20108E),
            (TYPES, 16, 0x0F20108F),
        ],
    ),
    // LF_BITFIELD
    (
        TYPES,
        b"\x0A\x00\x05\x12\x90\x10\x20\x10\xA1\xA1\xF2\xF1",
        &[(TYPES, 4, 0x10201090)],
    ),
    // LF_METHODLIST: plain, introducing, plain, pure introducing, plain
    (
        TYPES,
        b"\x32\x00\x06\x12\x03\x00\xB1\xB2\x91\x10\x20\x11\x13\x00\xB1\xB2\x92\x10\x20\x12\xC1\xC2\xC3\xC4\x07\x00\xB1\xB2\x93\x10\x20\x13\x1B\x00\xB1\xB2\x94\x10\x20\x14\xC1\xC2\xC3\xC4\x03\x00\xB1\xB2\x95\x10\x20\x15",
        &[
            (TYPES, 8, 0x11201091),
            (TYPES, 16, 0x12201092),
            (TYPES, 28, 0x13201093),
            (TYPES, 36, 0x14201094),
            (TYPES, 48, 0x15201095),
        ],
    ),
    // LF_ARRAY
    (
        TYPES,
        b"\x12\x00\x03\x15\x96\x10\x20\x16\x97\x10\x20\x17\x04\x80\xD1\xD2\xD3\xD4\x61\x00",
        &[(TYPES, 4, 0x16201096), (TYPES, 8, 0x17201097)],
    ),
    // LF_CLASS, LF_STRUCTURE, LF_INTERFACE
    (
        TYPES,
        b"\x1A\x00\x04\x15\xB1\xB2\x00\x02\x98\x10\x20\x18\x99\x10\x20\x19\x9A\x10\x20\x1A\x08\x00\x43\x00\x75\x00\xF2\xF1",
        &[
            (TYPES, 8, 0x18201098),
            (TYPES, 12, 0x19201099),
            (TYPES, 16, 0x1A20109A),
        ],
    ),
    (
        TYPES,
        b"\x1A\x00\x05\x15\xB1\xB2\x00\x00\x9B\x10\x20\x1B\x9C\x10\x20\x1C\x9D\x10\x20\x1D\x04\x80\xD1\xD2\xD3\xD4\x53\x00",
        &[
            (TYPES, 8, 0x1B20109B),
            (TYPES, 12, 0x1C20109C),
            (TYPES, 16, 0x1D20109D),
        ],
    ),
    (
        TYPES,
        b"\x1A\x00\x19\x15\xB1\xB2\x80\x02\x9E\x10\x20\x1E\x9F\x10\x20\x1F\xA0\x10\x20\x20\x08\x00\x49\x00\x00\xF3\xF2\xF1",
        &[
            (TYPES, 8, 0x1E20109E),
            (TYPES, 12, 0x1F20109F),
            (TYPES, 16, 0x202010A0),
        ],
    ),
    // LF_UNION
    (
        TYPES,
        b"\x12\x00\x06\x15\xB1\xB2\x00\x02\xA1\x10\x20\x21\x08\x00\x55\x00\x75\x00\xF2\xF1",
        &[(TYPES, 8, 0x212010A1)],
    ),
    // LF_ENUM
    (
        TYPES,
        b"\x12\x00\x07\x15\xB1\xB2\x00\x02\xA2\x10\x20\x22\xA3\x10\x20\x23\x45\x00\x75\x00",
        &[(TYPES, 8, 0x222010A2), (TYPES, 12, 0x232010A3)],
    ),
    // LF_VFTABLE
    (
        TYPES,
        b"\x16\x00\x1D\x15\xA4\x10\x20\x24\xA5\x10\x20\x25\xC1\xC2\xC3\xC4\x03\x00\x00\x00\x66\x00\x67\xF1",
        &[(TYPES, 4, 0x242010A4), (TYPES, 8, 0x252010A5)],
    ),
    // LF_FUNC_ID
    (
        ITEMS,
        b"\x0E\x00\x01\x16\xA6\x10\x20\x26\xA7\x10\x20\x27\x66\x00\xF2\xF1",
        &[(ITEMS, 4, 0x262010A6), (TYPES, 8, 0x272010A7)],
    ),
    // LF_MFUNC_ID
    (
        ITEMS,
        b"\x0E\x00\x02\x16\xA8\x10\x20\x28\xA9\x10\x20\x29\x66\x00\xF2\xF1",
        &[(TYPES, 4, 0x282010A8), (TYPES, 8, 0x292010A9)],
    ),
    // LF_BUILDINFO
    (
        ITEMS,
        b"\x12\x00\x03\x16\x03\x00\xAA\x10\x20\x2A\xAB\x10\x20\x2B\xAC\x10\x20\x2C\xF2\xF1",
        &[
            (ITEMS, 6, 0x2A2010AA),
            (ITEMS, 10, 0x2B2010AB),
            (ITEMS, 14, 0x2C2010AC),
        ],
    ),
    // LF_SUBSTR_LIST
    (
        ITEMS,
        b"\x0E\x00\x04\x16\x02\x00\x00\x00\xAD\x10\x20\x2D\xAE\x10\x20\x2E",
        &[(ITEMS, 8, 0x2D2010AD), (ITEMS, 12, 0x2E2010AE)],
    ),
    // LF_STRING_ID
    (
        ITEMS,
        b"\x0A\x00\x05\x16\xAF\x10\x20\x2F\x73\x00\xF2\xF1",
        &[(ITEMS, 4, 0x2F2010AF)],
    ),
    // LF_UDT_SRC_LINE
    (
        ITEMS,
        b"\x0E\x00\x06\x16\xB0\x10\x20\x30\xB1\x10\x20\x31\xC1\xC2\xC3\xC4",
        &[(TYPES, 4, 0x302010B0), (ITEMS, 8, 0x312010B1)],
    ),
    // LF_UDT_MOD_SRC_LINE
    (
        ITEMS,
        b"\x12\x00\x07\x16\xB2\x10\x20\x32\xC1\xC2\xC3\xC4\xC1\xC2\xC3\xC4\xB1\xB2\xF2\xF1",
        &[(TYPES, 4, 0x322010B2)],
    ),
    // LF_FIELDLIST of no members, and of each member
    (TYPES, b"\x02\x00\x03\x12", &[]),
    // LF_BCLASS, LF_BINTERFACE
    (
        TYPES,
        b"\x0E\x00\x03\x12\x00\x14\xB1\xB2\xB3\x10\x20\x33\x08\x00\xF2\xF1",
        &[(TYPES, 8, 0x332010B3)],
    ),
    (
        TYPES,
        b"\x12\x00\x03\x12\x1A\x15\xB1\xB2\xB4\x10\x20\x34\x04\x80\xD1\xD2\xD3\xD4\xF2\xF1",
        &[(TYPES, 8, 0x342010B4)],
    ),
    // LF_VBCLASS, LF_IVBCLASS
    (
        TYPES,
        b"\x16\x00\x03\x12\x01\x14\xB1\xB2\xB5\x10\x20\x35\xB6\x10\x20\x36\x08\x00\x04\x80\xD1\xD2\xD3\xD4",
        &[(TYPES, 8, 0x352010B5), (TYPES, 12, 0x362010B6)],
    ),
    (
        TYPES,
        b"\x16\x00\x03\x12\x02\x14\xB1\xB2\xB7\x10\x20\x37\xB8\x10\x20\x38\x04\x80\xD1\xD2\xD3\xD4\x08\x00",
        &[(TYPES, 8, 0x372010B7), (TYPES, 12, 0x382010B8)],
    ),
    // LF_INDEX
    (
        TYPES,
        b"\x0A\x00\x03\x12\x04\x14\xB1\xB2\xB9\x10\x20\x39",
        &[(TYPES, 8, 0x392010B9)],
    ),
    // LF_VFUNCTAB
    (
        TYPES,
        b"\x0A\x00\x03\x12\x09\x14\xB1\xB2\xBA\x10\x20\x3A",
        &[(TYPES, 8, 0x3A2010BA)],
    ),
    // LF_ENUMERATE
    (
        TYPES,
        b"\x0E\x00\x03\x12\x02\x15\xB1\xB2\x04\x80\xD1\xD2\xD3\xD4\x41\x00",
        &[],
    ),
    // LF_MEMBER
    (
        TYPES,
        b"\x0E\x00\x03\x12\x0D\x15\xB1\xB2\xBB\x10\x20\x3B\x08\x00\x78\x00",
        &[(TYPES, 8, 0x3B2010BB)],
    ),
    // LF_STMEMBER
    (
        TYPES,
        b"\x0E\x00\x03\x12\x0E\x15\xB1\xB2\xBC\x10\x20\x3C\x78\x00\xF2\xF1",
        &[(TYPES, 8, 0x3C2010BC)],
    ),
    // LF_METHOD
    (
        TYPES,
        b"\x0E\x00\x03\x12\x0F\x15\xB1\xB2\xBD\x10\x20\x3D\x6D\x00\xF2\xF1",
        &[(TYPES, 8, 0x3D2010BD)],
    ),
    // LF_NESTTYPE
    (
        TYPES,
        b"\x0E\x00\x03\x12\x10\x15\xB1\xB2\xBE\x10\x20\x3E\x6E\x00\xF2\xF1",
        &[(TYPES, 8, 0x3E2010BE)],
    ),
    // LF_ONEMETHOD: plain, introducing, pure introducing
    (
        TYPES,
        b"\x0E\x00\x03\x12\x11\x15\x03\x00\xBF\x10\x20\x3F\x6D\x00\xF2\xF1",
        &[(TYPES, 8, 0x3F2010BF)],
    ),
    (
        TYPES,
        b"\x12\x00\x03\x12\x11\x15\x13\x00\xC0\x10\x20\x40\xC1\xC2\xC3\xC4\x6D\x00\xF2\xF1",
        &[(TYPES, 8, 0x402010C0)],
    ),
    (
        TYPES,
        b"\x12\x00\x03\x12\x11\x15\x1B\x00\xC1\x10\x20\x41\xC1\xC2\xC3\xC4\x6D\x00\xF2\xF1",
        &[(TYPES, 8, 0x412010C1)],
    ),
    // all members that have fields, one behind another, with pads
    (
        TYPES,
        b"\x5A\x00\x03\x12\x00\x14\xB1\xB2\xC2\x10\x20\x42\x08\x00\xF2\xF1\x01\x14\xB1\xB2\xC3\x10\x20\x43\xC4\x10\x20\x44\x08\x00\x04\x80\xD1\xD2\xD3\xD4\x04\x14\xB1\xB2\xC5\x10\x20\x45\x02\x15\xB1\xB2\x08\x00\x41\x00\x0D\x15\xB1\xB2\xC6\x10\x20\x46\x08\x00\x78\x00\xF1\x0E\x15\xB1\xB2\xC7\x10\x20\x47\x73\x00\x11\x15\x13\x00\xC8\x10\x20\x48\xC1\xC2\xC3\xC4\x6D\x00\xF3\xF2\xF1",
        &[
            (TYPES, 8, 0x422010C2),
            (TYPES, 20, 0x432010C3),
            (TYPES, 24, 0x442010C4),
            (TYPES, 40, 0x452010C5),
            (TYPES, 56, 0x462010C6),
            (TYPES, 69, 0x472010C7),
            (TYPES, 79, 0x482010C8),
        ],
    ),
];

#[test]
fn fields_from_left_to_right(rt: HostRuntime) {
    for (space, bytes, want) in &LEAVES {
        assert!(rt; check(*space, bytes).is_ok(), "{bytes:?}");
        let mut fields = [(TYPES, 0, 0); 8];
        let mut listed = Listed {
            fields: &mut fields,
            count: 0,
        };
        each_field(*space, bytes, &mut listed);
        let count = listed.count;
        assert_eq!(rt; count, want.len(), "{bytes:?}");
        for (i, field) in want.iter().enumerate() {
            assert!(rt; i < fields.len());
            assert_eq!(rt; fields[i], *field, "{bytes:?}");
        }
    }
}

// Simple indices name no record. Of the others the first that names none is told, by its own space.
#[test]
fn first_that_names_none(rt: HostRuntime) {
    let cases: [(usize, u32, u32, Option<(Space, u32)>); 7] = [
        (0, 0, 0, Some((TYPES, 0x1002))),
        (0, 3, 0, None),
        (3, 5, 0, Some((TYPES, 0x1005))),
        (3, 6, 0, Some((TYPES, 0x1006))),
        (3, 7, 0, None),
        (5, 0, 1, Some((TYPES, 0x1000))),
        (6, 2, 1, Some((ITEMS, 0x1001))),
    ];
    for (i, types, items, want) in cases {
        let (space, bytes, _) = LEAVES[i];
        assert!(rt; check(space, bytes).is_ok(), "{bytes:?}");
        assert_eq!(rt;
            first_missing(space, bytes, types, items),
            want,
            "{bytes:?}"
        );
    }
}
