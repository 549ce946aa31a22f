//! The table of names, each at its offset among the strings of the stream `/names`.
#![tactic(auto)]

mod buckets;
mod fault;
mod laws;
mod list;
mod read;
mod table;
#[cfg(test)]
mod tests;
mod write;

pub use crate::fault::{NameFault, NamesFault};
pub use crate::laws::{buckets_are_counted, written_names_are_found, written_names_are_read};
pub use crate::read::{HEADER_BYTES, read_names};
pub use crate::table::NamesTable;
