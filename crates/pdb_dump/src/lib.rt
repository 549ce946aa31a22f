//! The texts that are printed of a file, and of what is wrong with one.
#![tactic(auto)]

mod container;
mod dump;
mod tables;
#[cfg(test)]
mod tests;

pub use crate::container::{container_text, damage_text};
pub use crate::tables::{check_text, dump_text};
