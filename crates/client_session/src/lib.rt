//! Desks: who answers the requests of a session.
#![tactic(auto)]

mod answer;
mod by_hub;
#[cfg(test)]
mod changed_blocks_tests;
#[cfg(test)]
mod failing_tests;
mod laws;
#[cfg(test)]
mod limits_tests;
mod listed;
mod replies;
mod shared;
mod solo;
#[cfg(test)]
mod tests;

pub use crate::laws::{each_answer, own_calls_grow, refused_calls, waits_for_nobody};
pub use crate::shared::Shared;
pub use crate::solo::Solo;
