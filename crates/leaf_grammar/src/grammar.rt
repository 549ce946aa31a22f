/// Which table a record belongs to.
#[derive(Clone, Copy, Debug, PartialEq, Eq)]
pub enum Space {
    Types,
    Items,
}

/// The width of a number that is read.
#[derive(Clone, Copy, Debug)]
pub enum Width {
    TwoBytes,
    FourBytes,
}

/// What a counted list holds.
#[derive(Clone, Copy, Debug)]
pub enum Element {
    /// A u32 that names a record of a space.
    Index(Space),
    /// A byte.
    Byte,
    /// Four bits. A last byte may be half used.
    HalfByte,
}

/// What stands at a place.
#[derive(Clone, Copy, Debug)]
pub enum Form {
    /// A u32 that names a record of a space.
    Index(Space),
    /// A number of so many bytes, on which nothing rests.
    Number(u8),
    /// A numeric leaf.
    Numeric,
    /// A text with its NUL.
    Text,
    /// The number of its elements, and the elements.
    List(Width, Element),
}

/// What attributes may say.
#[derive(Clone, Copy, Debug)]
pub enum Condition {
    /// Of a pointer: it is one to a member, of data or a function.
    ToMember,
    /// Of a method: it introduces a virtual one, pure or not.
    Introducing,
    /// Of a tag: it has a unique name.
    UniquelyNamed,
}

/// A part of a content.
#[derive(Clone, Copy, Debug)]
pub enum Part {
    Always(Form),
    /// It stands only where the attributes before it say so.
    Where(Condition, Form),
    /// A number on which later parts rest.
    Attributes(Width),
}

/// What stands behind the parts of a kind, one after another, to the end of the record.
#[derive(Clone, Copy, Debug)]
pub enum Rows {
    /// Members of a field list, with pads before, between and behind them.
    Members,
    /// Methods of one name.
    Methods,
}

/// A place in a record, and the attributes that were read on the way to it.
#[derive(Clone, Copy, Debug)]
pub struct Cursor {
    /// An offset from the record's first byte.
    pub at: usize,
    pub attributes: u32,
}

/// Parts from a place on.
#[derive(Clone, Copy, Debug)]
pub struct Row {
    pub parts: &'static [Part],
    /// An offset from the record's first byte.
    pub at: usize,
}

/// What a record was read as.
#[derive(Clone, Copy, Debug, PartialEq, Eq)]
pub struct Leaf {
    /// The kind, as the public format numbers it.
    pub kind: u16,
    /// The offset behind the content. At most 3 bytes follow.
    pub end: usize,
}

/// Where a record is first wrong, and what is wrong there.
#[derive(Clone, Copy, Debug, PartialEq, Eq)]
pub struct Malformed {
    /// An offset from the record's first byte.
    pub at: u32,
    /// One of the constants below.
    pub what: u8,
}

impl Malformed {
    /// The record has under 4 bytes, over 65,536, no multiple of 4, or another length than it says.
    pub const LENGTH: u8 = 1;
    /// The space has no such kind.
    pub const KIND: u8 = 2;
    /// A number, the bytes behind the first two of a numeric leaf, the elements of a list, or a pad
    /// reach past the record's end.
    pub const SHORT: u8 = 3;
    /// The first two bytes of a numeric leaf are no value and announce none.
    pub const NUMERIC: u8 = 4;
    /// A text has no NUL.
    pub const TEXT: u8 = 5;
    /// A field list has no such member, or a pad of no bytes.
    pub const MEMBER: u8 = 6;
    /// More than 3 bytes stand behind the content.
    pub const REST: u8 = 7;
}
