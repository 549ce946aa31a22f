//! The spaces that a refusal names.

pub const TYPES: u8 = 0;

pub const ITEMS: u8 = 1;

pub const NAMES: u8 = 2;
