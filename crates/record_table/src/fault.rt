/// Why a new record was not added.
#[derive(Clone, Copy, Debug, PartialEq, Eq)]
pub enum AddFault {
    /// The table has as many records as it may have.
    Records,
    /// The bytes of the records and the new one's would be so many.
    Bytes { needed: u32 },
    OutOfMemory,
}
