//! Scenes of several callers over one hub: what no clause of one call alone shows. The callers have
//! passes of their own, and the scenes are functions like those of a server; the tests play them over
//! files in memory.
#![tactic(auto)]

mod commits;
mod meetings;
mod seats;
mod sessions;
mod threads;

pub use crate::commits::{Within, add_within};
pub use crate::meetings::get_what_was_met;
pub use crate::seats::{Seats, end, make_hub};
pub use crate::sessions::serve;
pub use crate::threads::add_and_commit;

#[cfg(test)]
mod files;
#[cfg(test)]
mod scene_tests;
#[cfg(test)]
mod session_tests;
#[cfg(test)]
mod thread_tests;
