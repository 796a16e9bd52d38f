//! The history of a cube and the verdicts behind it: which requests are answered, and which enter.
#![tactic(auto)]

mod held;
mod parity;
mod source;
mod state;

pub use held::{Held, Next, Pending};
pub use state::State;
