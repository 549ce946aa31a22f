//! The journal of a server's calls: what each call did, as one word, and the words in their order.
#![tactic(auto)]

mod deed;
mod journal;
#[cfg(test)]
mod tests;
mod words;

pub use crate::deed::{Deed, Limit, TableKind};
pub use crate::journal::{Journal, PAGE_WORDS};
pub use crate::words::{caller_of, deed_of, word_of};
