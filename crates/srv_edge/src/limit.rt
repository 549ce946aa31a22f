//! The limits that a refusal names, by their numbers, and what each is at most.

/// The records of a table.
pub const RECORDS: u8 = 1;
/// The bytes of the records of a table.
pub const BYTES: u8 = 2;
/// The bytes of the strings of `/names`.
pub const NAMES: u8 = 3;

pub const MOST_RECORDS: u32 = 8_388_608;

pub const MOST_BYTES: u32 = 1_073_741_824;
/// Of the bytes of the strings the first is the NUL of the empty name.
pub const MOST_NAME_BYTES: u32 = 268_435_456;
/// Calls of one server.
pub const MOST_CALLS: u32 = 67_108_864;
/// Blocks of a file.
pub const MOST_BLOCKS: u32 = 1_048_576;

/// The greatest length of a request beside its tag: its kind, and a record.
pub const FRAME_BYTES: u32 = 65_537;
/// The most bytes of a record that is added.
pub const RECORD_BYTES: u32 = 65_536;
/// The most bytes of a name.
pub const NAME_BYTES: u32 = 65_535;
/// The most bytes that a session of a server reads.
pub const SESSION_BYTES: u64 = 4_294_967_296;
/// The most records of one list.
pub const LIST_RECORDS: u32 = 4_096;
