//! The objects outside of a run, the files of a command, read in turn, and the report of the run.
#![tactic(auto)]

mod cube_files;
mod opening;
mod report;
mod ruling;
pub mod statuses;
mod world;

pub use cube_files::{CubeFiles, RuledFiles, Rules};
pub use opening::{Guarded, Opened, open_flat, open_guarded, read_bytes, refuse};
pub use report::{Message, Report, no_message, refuse_line, spent_message, with_text};
pub use ruling::{Ruled, RuledGroup, RuledGroups, called, open_ruled};
pub use world::World;
