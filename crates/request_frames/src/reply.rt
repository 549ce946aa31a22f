/// What a client is answered. Records and names are slices of the frame.
#[derive(Clone, Copy, Debug)]
pub enum Reply<'a> {
    /// The version of the protocol that the server speaks.
    Hello(u16),
    /// The index of the type's record.
    AddedType(u32),
    /// The index of the item's record.
    AddedItem(u32),
    /// The offset of the name.
    AddedName(u32),
    GotType(&'a [u8]),
    GotItem(&'a [u8]),
    GotName(&'a [u8]),
    /// The number of the commit.
    Committed(u32),
    /// How many types, items and names there are.
    Counted(u32, u32, u32),
    Bye,
    /// The parts of the reply to a list, nine bytes each, as [`crate::next_part`] reads them. The
    /// space is that of the list's records.
    Parts { space: u8, parts: &'a [u8] },
    /// A refusal: its code and its two numbers, as docs/PROTOCOL.md lists them.
    Refused { code: u8, a: u32, b: u32 },
}

/// What one record of a list is answered: code 0 with the record's index in `a`, or the code of its
/// refusal with both numbers.
#[derive(Clone, Copy, Debug, PartialEq, Eq)]
pub struct Part {
    pub code: u8,
    pub a: u32,
    pub b: u32,
}
