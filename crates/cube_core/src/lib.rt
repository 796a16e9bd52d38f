//! A core: where a cube has facts, how many, and its values; with the rows of requests and plain
//! sums over them.
#![tactic(auto)]

mod by_rank;
mod core_cube;
mod index;
mod ranks;
mod rows;
mod steps;
mod stretch;
mod sums;
mod tally;

pub use core_cube::Core;
pub use rows::{rows_of, write_key};
pub use steps::Steps;
pub use tally::{Tally, sums_of, tallies_of};
