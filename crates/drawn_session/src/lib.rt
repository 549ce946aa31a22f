//! The session that is drawn from a seed: its requests, and the line that tells what came of it.
#![tactic(auto)]

mod draws;
mod laws;
mod records;
mod report;
mod requests;
#[cfg(test)]
mod tests;

pub use crate::laws::drawn_bytes_are_frames;
pub use crate::report::{Outcome, line};
pub use crate::requests::session_bytes;
