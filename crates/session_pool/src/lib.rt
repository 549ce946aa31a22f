//! A pool of workers that serve the links of one door, in threads of their own.
#![tactic(auto)]

mod gate;
mod halves;
mod marks;
mod pool;
mod shop;
#[cfg(test)]
mod tests;
mod work;

pub use crate::pool::{Pooled, run_pool};
pub use crate::work::Work;
