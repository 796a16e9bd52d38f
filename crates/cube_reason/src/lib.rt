//! Reasons for refusals, which anybody can check without trusting the code that refused.
//!
//! A reason depends on what is public alone: no function here takes a value of the cube.
#![tactic(auto)]

mod accepting;
mod blocks;
mod cases;
mod finding;
mod joints;
mod laws;
mod narrowing;
mod reading;
mod reasoning;
mod reasons;
mod searching;
mod showing;
mod stepping;
mod texts;
mod ties;
mod trails;
mod walking;
mod worked;

pub use accepting::accept;
pub use laws::{answers_alone_are_admitted, reasons_are_of_the_shape};
pub use reasoning::reason;
pub use reasons::{End, Origin, Reason, StepList, WalkStep};
pub use showing::{accept_text, why_text};
pub use texts::reason_text;
pub use worked::worked_reasons;
