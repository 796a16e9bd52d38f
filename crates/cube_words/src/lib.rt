//! The words of the command line: commands, their options, and what is wrong with them.
#![tactic(auto)]

mod drafting;
mod helping;
mod ordered;
mod words;
mod worked;

pub use drafting::Drafting;
pub use helping::help;
pub use ordered::{Making, Orders};
pub use words::{Command, Setting, Usage, orders_of};
pub use worked::{worked_help, worked_makings, worked_requests, worked_seconds};
