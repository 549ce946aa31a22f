use names_table::NamesTable;
use record_table::RecordTable;
use tpi_stream::Kept;

/// The tables of a server: its types, its items and its names.
#[derive(Drop)]
pub struct Tables {
    pub types: RecordTable,
    pub items: RecordTable,
    pub names: NamesTable,
}

/// How many types, items and names there are.
#[derive(Clone, Copy, Debug, PartialEq, Eq)]
pub struct Counts {
    pub types: u32,
    pub items: u32,
    pub names: u32,
}

/// What a file keeps, whatever is written to it: numbers of both streams of records, and the number
/// of the stream of names.
#[derive(Clone, Copy, Debug, PartialEq, Eq)]
pub struct KeptNumbers {
    pub types: Kept,
    pub items: Kept,
    pub names_stream: u32,
}
