//! What the commands do that a cube stands before, each over the objects outside that it needs.
#![tactic(auto)]

mod advising;
mod auditing;
mod carrying;
mod cells;
mod drafting;
mod making;
mod reasons;
mod saying;
mod summary;
mod talking;
mod worked;

pub use advising::advise;
pub use auditing::audit;
pub use carrying::carry_over;
pub use cells::{Telling, tell};
pub use drafting::draft;
pub use making::show;
pub use reasons::say_why;
pub use saying::{Unsaid, print};
pub use summary::check;
pub use talking::{ask, sum};
pub use worked::worked_counts;
