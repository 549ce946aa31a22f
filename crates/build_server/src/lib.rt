//! The server: the clients of one door served over the tables of one file.
#![tactic(auto)]

#[cfg(test)]
mod running;
mod server;
#[cfg(test)]
mod slow_tests;
mod summary;
#[cfg(test)]
mod tests;
mod worker;
mod workers;

pub use crate::server::{Closed, run_server};
