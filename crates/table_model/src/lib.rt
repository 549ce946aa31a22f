//! The one-thread table: its calls, what they answer and the tables that they leave; the judgement
//! that an add goes through; and a plain table, which answers by searching lists from their front.
#![tactic(auto)]

mod add;
mod call;
mod plain;
mod search;
#[cfg(test)]
mod tests;

pub use crate::add::{add_leaf, add_name, add_record};
pub use crate::call::{Call, Outcome};
pub use crate::plain::PlainTable;
pub use crate::search::{place_of, place_of_name};
