//! How a run of the program ends: its status, and the text that it prints last.
#![tactic(auto)]

mod printing;
mod status;

pub use crate::printing::print;
pub use crate::status::{Status, status_of_end, status_of_fault};
