//! The stream directory, read from its bytes and written again.
#![tactic(auto)]

mod directory;
mod fault;
mod judging;
mod layout;
mod reading;
mod writing;

pub use crate::directory::{ABSENT_SIZE, Directory, Stream};
pub use crate::fault::{DirDamage, DirFault};
pub use crate::judging::judge;
pub use crate::layout::words_of;
pub use crate::reading::{read_directory, read_directory_behind};
pub use crate::writing::{put_words, write_directory};

#[cfg(test)]
mod tests;
