use super::*;
use std::test::Fail;

// The numbers of a new file of eight streams, as they stand from byte 32 on.
const NEW_FILE: [u8; 24] = [
    0x00, 0x10, 0, 0, 1, 0, 0, 0, 9, 0, 0, 0, 0x34, 0, 0, 0, 0, 0, 0, 0, 8, 0, 0, 0,
];

const NUMBERS: Super = Super {
    block: 4096,
    map: 1,
    blocks: 9,
    dir_bytes: 52,
    unknown: 0,
    map_addr: 8,
};

#[test]
fn new_file(rt: HostRuntime) {
    let text = write_super(&NUMBERS);
    assert_eq!(rt; text[..24], b"Microsoft C/C++ MSF 7.00"[..]);
    assert_eq!(rt; text[24..32], [0x0d, 0x0a, 0x1a, 0x44, 0x53, 0, 0, 0][..]);
    assert_eq!(rt; text[32..], NEW_FILE[..]);
    assert_eq!(rt; read_super(&text, 36_864, 1 << 20), Ok(NUMBERS));
}

#[test]
fn first_faults(rt: HostRuntime) {
    use SuperFault::*;
    // The place of a byte that is changed, its new value, and the first fault then.
    let cases = [
        (0, 0x4e, Magic),
        (31, 1, Magic),
        (33, 0x30, BlockSize),
        (34, 0x01, BlockSize),
        (33, 0, BlockSize),
        (36, 0, FreeMap),
        (36, 3, FreeMap),
        (40, 3, Blocks),
        (40, 10, Blocks),
        (42, 0x11, Blocks),
        (44, 3, Directory),
        (46, 0x41, Directory),
        (52, 0, MapAddr),
        (52, 1, MapAddr),
        (52, 2, MapAddr),
        (52, 9, MapAddr),
    ];
    for (place, value, fault) in cases {
        let mut text = write_super(&NUMBERS);
        assert!(rt; place < 56);
        text[place] = value;
        assert_eq!(rt;
            read_super(&text, 36_864, 1 << 20),
            Err(fault),
            "at {place}"
        );
    }
}

#[test]
fn short_files(rt: HostRuntime) {
    let text = write_super(&NUMBERS);
    assert_eq!(rt;
        read_super(text.split_at(55).0, 55, 1 << 20),
        Err(SuperFault::Magic)
    );
    assert_eq!(rt; read_super(&[], 0, 1 << 20), Err(SuperFault::Magic));
    assert_eq!(rt; read_super(&text, 36_863, 1 << 20), Err(SuperFault::Blocks));
    assert_eq!(rt; read_super(&text, 36_864, 8), Err(SuperFault::Blocks));
    assert_eq!(rt; read_super(&text, 41_864, 9), Ok(NUMBERS));
}

#[test]
fn blocks(rt: HostRuntime) {
    let sizes = [512, 1024, 2048, 4096, 8192, 16_384, 32_768];
    for size in sizes {
        assert!(rt; is_block_size(size), "{size}");
    }
    for size in [0, 256, 513, 1536, 65_536] {
        assert!(rt; !is_block_size(size), "{size}");
    }
    for (b, is) in [
        (0, true),
        (1, true),
        (2, true),
        (3, false),
        (511, false),
        (512, false),
        (513, true),
        (514, true),
        (515, false),
    ] {
        assert_eq!(rt; reserved(512, b), is, "block {b}");
    }
    assert_eq!(rt; blocks_of_size(512, 0), 0);
    assert_eq!(rt; blocks_of_size(512, 512), 1);
    assert_eq!(rt; blocks_of_size(512, 513), 2);
    assert_eq!(rt; map_blocks(512, 4096), 1);
    assert_eq!(rt; map_blocks(512, 4097), 2);
    assert_eq!(rt; block_offset(4096, 1 << 20), 1 << 32);
    assert_eq!(rt; block_offset(32_768, u32::MAX), 0x7fff_ffff_8000);
}

#[test]
fn bits(rt: HostRuntime) {
    let mut bits = [0x80, 0x01];
    assert!(rt; has_bit(&bits, 7) && has_bit(&bits, 8));
    assert!(rt; !has_bit(&bits, 0) && !has_bit(&bits, 9));
    set_bit(&mut bits, 0);
    clear_bit(&mut bits, 8);
    assert_eq!(rt; bits, [0x81, 0x00]);
}

#[test]
fn edits(rt: HostRuntime) -> Result<(), Fail> {
    let edit = Edit::new(2, 512, [7, 8].to_vec(rt.alloc())?, &[9, 10, 11], 517);
    assert_eq!(rt; edit.stream(), 2);
    assert_eq!(rt; edit.at(), 512);
    assert_eq!(rt; edit.bytes_len(), 5);
    assert_eq!(rt; edit.len(), 517);
    let mut bytes = [6].to_vec(rt.alloc())?;
    edit.put_bytes(&mut bytes, 1, 4)?;
    assert_eq!(rt; bytes.as_slice(), [6, 8, 9, 10].as_slice());
    Ok(())
}
