//! A cube is served over the connections of a wire, or to those of a script.
#![tactic(auto)]

mod housing;
mod replaying;
mod serving;
mod worked;

pub use housing::serve_groups;
pub use replaying::replay_cube;
pub use serving::{Endpoint, serve_cube};
pub use worked::worked_in_hand;
