//! The hashes of names and records, which say in which bucket of a hash stream a record falls.
#![tactic(auto)]

mod crc;
mod record;
mod rows;
mod strings;
#[cfg(test)]
mod tests;

pub use crate::crc::buffer;
pub use crate::record::of_record;
pub use crate::strings::{string_v1, string_v2};
