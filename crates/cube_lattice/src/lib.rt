//! Cuboids: their order, their meet, their numbers, and the grain of a request.
//!
//! A cuboid has one level for each dimension. Level 0 is the finest, and the level behind the named
//! ones is `all`.
#![tactic(auto)]

mod below;
mod grains;
mod number;
mod order;

pub use below::{cuboids, cuboids_below};
pub use grains::grain;
pub use number::cuboid_number;
pub use order::{finer_or_equal, meet_into, narrow};
