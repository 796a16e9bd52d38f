//! What can be released from a cube: the finest cuboids that its rules leave open, before anything is asked and behind
//! what was, and the verdicts on the lines of a workload.
#![tactic(auto)]

mod advising;
mod behind;
mod entering;
mod finest;
pub mod laws;
mod lines;
mod lone;
mod telling;
mod word;
mod worked;
mod workload;

pub use advising::advice;
pub use behind::advice_behind;
pub use entering::workload_behind;
pub use finest::finest_behind;
pub use lone::lone_text;
pub use telling::{told_first, told_later};
pub use word::Word;
pub use worked::{worked_advice, worked_advice_behind, worked_lone, worked_words};
pub use workload::{Workload, is_workload, workload_text};
