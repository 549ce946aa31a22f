//! The streams of types and of items: a header and the records, read and written, and the text of
//! the hash stream beside.
#![tactic(auto)]

mod fault;
mod hashes;
mod header;
mod laws;
mod reading;
mod written;

pub use crate::fault::TpiFault;
pub use crate::hashes::{OFFSET_STEP, extend_offsets, hash_text_from};
pub use crate::header::{
    FIRST_INDEX, HEADER_BYTES, Header, KEY_BYTES, Kept, LEAST_BUCKETS, MOST_BUCKETS, VERSION,
    header_bytes, header_with, kept_of,
};
pub use crate::laws::{records_are_joined, text_is_read, written_records_are_read};
pub use crate::reading::{Records, read_records};
pub use crate::written::{record_stream_first, record_stream_from};

#[cfg(test)]
mod tests;
