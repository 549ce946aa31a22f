//! What the streams of a file hold, and what is written to them.
#![tactic(auto)]

mod base;
mod begun;
mod commit;
mod commits;
mod content;
mod cut;
mod edits;
mod fault;
mod file;
mod laws;
mod new_file;
mod open;
mod prepare;
mod tables;
mod writing;

pub use crate::commit::{AGE, DiskFault, Pending};
pub use crate::commits::{
    commits_can_be_planned, commits_keep_old_records, commits_write_tables,
    held_tables_can_be_committed, sizes_are_read,
};
pub use crate::file::PdbFile;
pub use crate::laws::{
    changed_files_are_damaged, held_numbers_can_be_kept, judgements_want_no_memory,
    new_file_is_written, written_tables_are_held,
};
pub use crate::tables::{Counts, KeptNumbers, Tables};

#[cfg(test)]
mod tests;
