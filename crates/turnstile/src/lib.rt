//! One history for all threads, over any value: threads take turns on the value, and
//! each pass knows a beginning of the history and its own calls in it.
#![tactic(auto)]

mod history;
mod line;
mod pass;
mod plays;
mod steps;
mod tell;
#[cfg(test)]
mod tests;
mod turn;
mod view;

pub use history::{Basis, Entry, Historied};
pub use pass::{Pass, Turnstile};
pub use tell::Note;
pub use turn::Turn;
