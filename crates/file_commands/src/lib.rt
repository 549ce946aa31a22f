//! The commands over one file: `init`, `session`, `check` and `dump`, and `gen`, whose file is in memory.
#![tactic(auto)]

mod commands;
#[cfg(test)]
mod commit_tests;
mod draw;
#[cfg(test)]
mod draw_tests;
mod init;
#[cfg(test)]
mod lying_tests;
#[cfg(test)]
mod running;
mod session;
#[cfg(test)]
mod session_tests;
mod show;
#[cfg(test)]
mod show_tests;
#[cfg(test)]
mod version_tests;

pub use crate::commands::run;
pub use crate::show::Detail;
