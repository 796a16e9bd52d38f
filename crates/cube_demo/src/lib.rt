//! A demonstration: a made cube and made queries over it, judged, asked, and counted.
#![tactic(auto)]

mod answers;
mod asking;
mod demonstration;
mod fault;
mod hiding;
mod judging;
mod summary;
mod sums;
mod worked;

pub use demonstration::demo;
pub use fault::DemoFault;
pub use worked::{worked_counts, worked_summary};
