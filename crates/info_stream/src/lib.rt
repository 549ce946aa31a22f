//! The PDB stream: its age, and its map from names to streams.
#![tactic(auto)]

mod fault;
mod fields;
mod laws;
mod named;
mod text;

pub use crate::fault::InfoFault;
pub use crate::laws::{age_is_kept, new_stream_is_read};
pub use crate::named::{age, find_stream};
pub use crate::text::{new_info, with_age};

#[cfg(test)]
mod tests;
