//! Witnesses: for a protected cell, the changes that make another cube with the same answers, as text and as a fact file.
#![tactic(auto)]

mod file;
mod finding;
mod grounds;
mod laws;
mod leaves;
mod shares;
mod texts;
mod twin;
mod worked;

pub use finding::{WitnessFault, changes};
pub use grounds::Grounds;
pub use laws::{files_read_back, moves_are_changes, twins_read_back};
pub use texts::witness_text;
pub use twin::{TwinFault, twin_facts};
pub use worked::{worked_twins, worked_witnesses};
