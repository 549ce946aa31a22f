//! The records of a table in chains by their hashes, so that each is found among those of its
//! bucket alone.
#![tactic(auto)]

mod chains;
mod links;
#[cfg(test)]
mod tests;

pub use crate::chains::Chains;
