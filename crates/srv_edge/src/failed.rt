ghost use Rattle.std.specs.Prelude.{◌≤◌};
ghost use Rattle.srv_edge.specs.declared.limit.TheConstants.{MOST_BLOCKS, MOST_BYTES, MOST_CALLS, MOST_NAME_BYTES, MOST_RECORDS};

use crate::limit::{MOST_BLOCKS, MOST_BYTES, MOST_CALLS, MOST_NAME_BYTES, MOST_RECORDS};

/// A call on the outside failed, and counted a fault.
#[derive(Clone, Copy, Debug, PartialEq, Eq)]
pub struct Failed;

/// How much the tables of one server hold. Tests make these numbers smaller.
#[derive(Clone, Copy, Debug, PartialEq, Eq)]
pub struct Limits {
    /// Records in each table.
    pub records: u32,
    /// Bytes of the records of each table.
    pub bytes: u32,
    /// Bytes of the strings of `/names`, of which the first is the NUL of the empty name.
    pub name_bytes: u32,
    /// Calls of one server.
    pub calls: u32,
    /// Blocks of the file.
    pub blocks: u32,
    pub ghost few_records: { records ≤ MOST_RECORDS },
    pub ghost few_bytes: { bytes ≤ MOST_BYTES },
    pub ghost few_name_bytes: { name_bytes ≤ MOST_NAME_BYTES },
    pub ghost some_name_bytes: { 1 ≤ name_bytes },
    pub ghost few_calls: { calls ≤ MOST_CALLS },
    pub ghost few_blocks: { blocks ≤ MOST_BLOCKS },
    pub ghost some_blocks: { 9 ≤ blocks },
}

impl Limits {
    /// What the program serves with: each number at its greatest.
    pub const STANDARD: Limits = Limits {
        records: MOST_RECORDS,
        bytes: MOST_BYTES,
        name_bytes: MOST_NAME_BYTES,
        calls: MOST_CALLS,
        blocks: MOST_BLOCKS,
    };
}

/// Why a request has no other answer. docs/PROTOCOL.md has the code and the numbers of each.
#[derive(Clone, Copy, Debug, PartialEq, Eq)]
pub enum Refusal {
    /// The record is no leaf: the offset of the first byte that is wrong, and what is wrong there.
    Malformed { at: u32, what: u8 },
    /// No record or name stands at an index or offset. Space 0 has types, 1 items, 2 names.
    NotGiven { space: u8, index: u32 },
    /// A limit would be passed, and what would be needed.
    Full { which: u8, needed: u32 },
    /// A commit has begun and has not ended.
    Underway { number: u32 },
    /// The device failed in this commit.
    DiskFault { number: u32 },
    OutOfMemory,
}

/// How a session ended.
#[derive(Clone, Copy, Debug, PartialEq, Eq)]
pub enum SessionEnd {
    /// At a Bye frame, which was answered.
    Bye,
    /// The input ended between two frames.
    Ended,
    /// The input ended within a frame.
    CutShort,
    /// A length was 0 or over 65,537.
    BadLength,
    /// The source failed.
    ReadFault,
    /// The sink failed.
    WriteFault,
    /// The most bytes that a session may read were read.
    TooLong,
}
