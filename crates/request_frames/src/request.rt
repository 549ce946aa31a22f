/// What a client asks. Records and names are slices of the frame.
#[derive(Clone, Copy, Debug)]
pub enum Request<'a> {
    /// The version of the protocol that the client speaks, at least 1.
    Hello(u16),
    /// A type's record. Any bytes may come: what is no record is malformed.
    AddType(&'a [u8]),
    /// An item's record.
    AddItem(&'a [u8]),
    /// At most 65,535 bytes without NUL.
    AddName(&'a [u8]),
    GetType(u32),
    GetItem(u32),
    GetName(u32),
    /// The tables are to be written to their file.
    Commit,
    Counts,
    Bye,
    /// Types' records, one after another, each with its length of two bytes. Of version 2 alone, as
    /// the next.
    AddTypes(&'a [u8]),
    /// Items' records.
    AddItems(&'a [u8]),
}

/// Why a frame is no request.
#[derive(Clone, Copy, Debug, PartialEq, Eq)]
pub enum BadFrame {
    /// There are no requests of its kind in the version.
    Kind,
    /// Requests of its kind have another body.
    Body,
}
