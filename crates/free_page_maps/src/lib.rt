//! The free block maps: a map is read as its rising list of free blocks, and written from it.
#![tactic(auto)]

mod counting;
mod free_map;
mod lowest;
mod padding;
mod reserved;

pub use crate::free_map::{FreeMap, other};

#[cfg(test)]
mod tests;
