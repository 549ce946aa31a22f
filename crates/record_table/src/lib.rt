//! A table of records that keeps each distinct record once and gives it an index.
#![tactic(auto)]

mod fault;
mod first;
mod lookup;
mod table;
#[cfg(test)]
mod tests;

pub use crate::fault::AddFault;
pub use crate::first::FIRST_INDEX;
pub use crate::table::RecordTable;
