//! The value that a server's threads share: its tables, the file that they came from and go to, and
//! the journal of its calls. Threads take turns on it; while a commit is written the file is out,
//! and the turns of others go on.
#![tactic(auto)]

mod adds;
mod begin;
mod book;
mod calls;
mod commits;
mod end;
mod gets;
mod hub;
mod places;
mod state;
mod turns;
mod under_way;
mod value;

pub use crate::book::Book;
pub use crate::end::Ended;
pub use crate::hub::{Hub, HubPass};
pub use crate::places::CALLS;
pub use crate::turns::{HubTurn, add_leaf};
pub use crate::under_way::{Done, Out};
pub use crate::value::HubValue;
