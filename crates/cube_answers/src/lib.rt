//! The sums of a request, and the texts of answers and refusals.
#![tactic(auto)]

mod answers;
mod cells;
mod numbers;
mod refusals;
mod sums;
mod tallied;
mod worked;

pub use answers::answer_text;
pub use cells::{cell_at, push_cell, push_cuboid, push_place};
pub use refusals::verdict_text;
pub use sums::answer;
pub use tallied::{tallied_text, written_answer};
pub use worked::{worked_answers, worked_refusals};
