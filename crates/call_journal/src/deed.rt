/// One of the three tables.
#[derive(Clone, Copy, Debug, PartialEq, Eq)]
pub enum TableKind {
    Types,
    Items,
    Names,
}

/// A limit of a table that an add may meet.
#[derive(Clone, Copy, Debug, PartialEq, Eq)]
pub enum Limit {
    /// How many records there may be.
    Records,
    /// How many bytes the records may have.
    Bytes,
    /// How many bytes the names may have.
    Names,
}

/// What a call did. docs/HISTORY.md has the word of each.
#[derive(Clone, Copy, Debug, PartialEq, Eq)]
pub enum Deed {
    /// An add was answered with an index or an offset.
    Added {
        table: TableKind,
        at: u32,
    },
    /// A get asked for an index or an offset.
    Asked {
        table: TableKind,
        at: u32,
    },
    Counted,
    /// An add was refused, since the record names an index at which nothing stands.
    NotGiven {
        index: u32,
        space: TableKind,
        table: TableKind,
    },
    /// An add of so many bytes was refused, since a limit would be passed.
    Full {
        length: u32,
        limit: Limit,
        table: TableKind,
    },
    /// A commit began.
    Began {
        number: u32,
    },
    /// A commit ended, acknowledged or faulted.
    Ended {
        number: u32,
        acknowledged: bool,
    },
    /// A commit was refused, since this one was under way.
    Underway {
        number: u32,
    },
}
