//! The groups file: groups of users that do not share answers, each with a policy of its own.
#![tactic(auto)]

mod fault;
mod group;
mod read;
mod worked;

pub use fault::{GroupsFault, fault_text};
pub use group::{GroupFile, GroupList};
pub use read::read_groups;
pub use worked::worked_files;
