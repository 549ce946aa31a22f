//! The codes of refusals. docs/PROTOCOL.md says when each comes.

pub const BAD_LENGTH: u8 = 1;

pub const BAD_KIND: u8 = 2;

pub const BAD_BODY: u8 = 3;

pub const MALFORMED: u8 = 4;

pub const NOT_GIVEN: u8 = 5;

pub const FULL: u8 = 6;

pub const OUT_OF_MEMORY: u8 = 7;

pub const DISK_FAULT: u8 = 8;

pub const UNDERWAY: u8 = 9;
