//! The book of a cube: the cube with its policy, its history, and the log that keeps it, which answers questions.
#![tactic(auto)]

mod answering;
mod book;
mod compacting;
mod fault;
mod holding;
mod laws;
mod opening;
mod prepared;
mod rolling;
mod shared;
mod turns;
mod witness;
mod worked;

pub use book::Book;
pub use fault::StartFault;
pub use laws::{compaction_keeps_all, rooms_in_words};
pub use shared::SharedCore;
pub use turns::Turns;
pub use witness::{NoChanges, grounds_of};
pub use worked::{worked_asks, worked_changes};
