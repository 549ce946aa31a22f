//! The histories that the one-thread table makes legal, and the world of calls, commits, crashes and
//! reopenings, with its law. No thread and no device is in it: all of it is plain data.
#![tactic(auto)]

mod commit;
mod judge;
mod laws;
mod state;
#[cfg(test)]
mod tests;
mod verdict;

pub use crate::commit::OpenCommit;
pub use crate::judge::replay;
pub use crate::laws::{
    acknowledged, commits, events, faults, grows, open_commits, reopening, replayed, replies,
    words, world,
};
pub use crate::verdict::Verdict;
pub use table_model::{Call, Outcome, PlainTable};
