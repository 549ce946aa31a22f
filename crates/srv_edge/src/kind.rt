//! The kinds of frames. docs/PROTOCOL.md says what each asks and is answered.

pub const HELLO: u8 = 1;

pub const ADD_TYPE: u8 = 2;

pub const ADD_ITEM: u8 = 3;

pub const ADD_NAME: u8 = 4;

pub const GET_TYPE: u8 = 5;

pub const GET_ITEM: u8 = 6;

pub const GET_NAME: u8 = 7;

pub const COMMIT: u8 = 8;

pub const COUNTS: u8 = 9;

pub const BYE: u8 = 10;

/// Of version 2 alone, as the next.
pub const ADD_TYPES: u8 = 11;

pub const ADD_ITEMS: u8 = 12;

/// The kind of a reply is that of its request and so much more.
pub const REPLY: u8 = 128;

/// The kind of every refusal.
pub const REFUSED: u8 = 255;
