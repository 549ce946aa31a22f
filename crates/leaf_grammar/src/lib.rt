//! Which records are leaves, and what stands in them: one walk over the parts of a record's kind,
//! from left to right, with a visitor.
#![tactic(auto)]

mod grammar;
mod judge;
mod kinds;
mod laws;
mod parts;
mod rows;
mod tag;
#[cfg(test)]
mod tests;
mod visit;
mod walk;

pub use crate::grammar::{Element, Form, Leaf, Malformed, Space, Width};
pub use crate::judge::check;
pub use crate::laws::leaves_are_spelled;
pub use crate::parts::{read, width_bytes};
pub use crate::tag::{Tag, tag_of};
pub use crate::visit::VisitForms;
pub use crate::walk::{record_kind, walk_forms};
