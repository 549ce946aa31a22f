//! The words of a command line, and the plan that they stand for.
#![tactic(auto)]

mod laws;
mod line;
mod plan;
#[cfg(test)]
mod tests;
mod values;
mod word;

pub use crate::laws::{plans_have_words, words_spell};
pub use crate::plan::{Plan, Usage, plan_of};
pub use crate::word::Word;
