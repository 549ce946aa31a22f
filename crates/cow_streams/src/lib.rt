//! The plan of a commit: which blocks are written, and with what, so that the old image stands
//! until the superblock turns; and the plan of a new file.
#![tactic(auto)]

mod checking;
mod counting;
mod edits;
mod fault;
mod freeing;
mod giving;
mod laws;
mod laying;
mod packing;
mod planned;
mod planning;
mod write;
mod writing;

pub use crate::checking::may_plan;
pub use crate::fault::{PlanFault, Which};
pub use crate::laws::{new_plan_packs, plan_of_a_file, planned_is_plan};
pub use crate::packing::new_plan;
pub use crate::planned::Plan;
pub use crate::planning::plan;
pub use crate::write::BlockWrite;

#[cfg(test)]
mod tests;
