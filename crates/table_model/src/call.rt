use srv_edge::Text;

/// A call on the three tables.
#[derive(Drop)]
pub enum Call {
    AddType(Text),
    AddItem(Text),
    AddName(Text),
    GetType(u32),
    GetItem(u32),
    GetName(u32),
    Counts,
}

/// What a call answers that is not refused.
#[derive(Drop)]
pub enum Outcome {
    /// The index of a record, or the offset of a name.
    Index(u32),
    /// A record or a name.
    Bytes(Text),
    /// How many types, items and names there are.
    Counts(u32, u32, u32),
}
