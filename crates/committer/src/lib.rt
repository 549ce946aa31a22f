//! A store: a file on a device, whose streams are edited by commits that write no block of the file
//! as it stands, so that a crash leaves the old streams or the new ones.
#![tactic(auto)]

mod fault;
mod laws;
mod prepared;
mod state;
mod store;
mod writer;

pub use crate::fault::{BLOCKS, CommitFault, DIRECTORY};
pub use crate::laws::written_reads;
pub use crate::prepared::Prepared;
pub use crate::state::State;
pub use crate::store::Store;

#[cfg(test)]
mod tests;
