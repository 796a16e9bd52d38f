//! The policy file: how each measure of a cube is controlled, and what is protected.
#![tactic(auto)]

mod below;
mod fault;
mod fewer;
mod keys;
mod listed;
mod measure;
mod object;
mod read;
mod slice;
mod worked;

pub use fault::{PolicyFault, fault_text};
pub use read::read_policy;
pub use worked::worked_files;
