//! The protocol of a session: requests read and written, replies and refusals, the desk that
//! answers and the loop that serves a link.
#![tactic(auto)]

mod client;
mod desk;
mod laws;
mod list;
mod next;
mod read;
mod reply;
mod request;
mod serve;
#[cfg(test)]
mod tests;
mod write;

pub use crate::client::{read_reply, write_request};
pub use crate::desk::Desk;
pub use crate::laws::{one_list_of_records, one_request_a_frame};
pub use crate::list::{next_part, next_record};
pub use crate::read::{head_of, read_request};
pub use crate::reply::{Part, Reply};
pub use crate::request::{BadFrame, Request};
pub use crate::serve::serve_link;
pub use crate::write::{
    part_of, push_body, push_part, take_in, write_bad, write_frame, write_refusal,
};
pub use srv_edge::Head;
