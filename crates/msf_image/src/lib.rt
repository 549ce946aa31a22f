//! A file read as its container: superblock, directory and free blocks, or its first damage; and a
//! new file made of streams.
#![tactic(auto)]

mod blocks;
mod fault;
mod image;
mod laws;
mod open;
mod packed;

pub use crate::fault::{Damage, DamageKind, OpenFault};
pub use crate::image::Image;
pub use crate::laws::{
    given_in_order, judged_where_it_reads, packed_file_reads, reading_hangs_on_its_source,
    torn_write_spares,
};
pub use crate::open::open_image;
pub use crate::packed::{
    NewImage, given_before, given_block, is_packable, new_file, new_image, put_block,
};

#[cfg(test)]
mod open_tests;
#[cfg(test)]
mod packed_tests;
