/// The index of the first record of a table. Those below it are simple, and name no record.
pub const FIRST_INDEX: u32 = 0x1000;
