//! The index fields of a leaf: each shown to a visitor, and the first that names no record.
#![tactic(auto)]

mod fields;
mod laws;
mod missing;
#[cfg(test)]
mod tests;
mod visit;

pub use crate::fields::each_field;
pub use crate::laws::{fields_lie_apart, fields_may_change};
pub use crate::missing::first_missing;
pub use crate::visit::Visit;
