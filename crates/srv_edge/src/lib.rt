//! What the program meets outside itself: sources and sinks of bytes, and devices, with their fakes
//! in memory, the standard streams and a file of the system; and the plain types that all crates
//! above share.
#![tactic(auto)]

mod ahead;
mod both;
pub mod code;
mod device;
mod door;
mod failed;
mod faults;
mod file;
mod give;
mod head;
mod held;
pub mod kind;
mod laws;
pub mod limit;
mod link;
mod lock_file;
mod memory;
mod memory_device;
mod memory_door;
mod memory_image;
mod memory_record;
mod piece;
mod private_socket;
mod range;
mod records;
mod sink;
mod source;
pub mod space;
mod standard;
mod steps;
mod still;
#[cfg(test)]
mod tests;
mod unix_door;
mod unix_link;
mod words;

pub use crate::both::Both;
pub use crate::device::Device;
pub use crate::door::{Accepted, Door};
pub use crate::failed::{Failed, Limits, Refusal, SessionEnd};
pub use crate::faults::FaultCount;
pub use crate::file::FileDevice;
pub use crate::give::give_all;
pub use crate::head::Head;
pub use crate::laws::{images_keep_settled, one_reading, some_reading};
pub use crate::link::Link;
pub use crate::memory::{MemLink, MemSink, MemSource};
pub use crate::memory_device::MemDevice;
pub use crate::memory_door::MemDoor;
pub use crate::memory_record::CallKind;
pub use crate::piece::{PIECE_BYTES, Piece, Room, Text};
pub use crate::records::RecordList;
pub use crate::sink::Sink;
pub use crate::source::Source;
pub use crate::standard::{StdIn, StdOut};
pub use crate::steps::Steps;
pub use crate::still::StillDevice;
pub use crate::unix_door::UnixDoor;
pub use crate::unix_link::UnixLink;
pub use crate::words::{half, half_at, word, word_at};
