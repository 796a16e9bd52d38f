//! The table of the nonempty cells of one cuboid, with their sums.
//!
//! A request whose grain is not finer than the cuboid is answered from the cells alone: each row of
//! the answer is a union of cells, and each place stands in exactly one cell. Where it groups at just
//! the levels of the cuboid and picks nothing, the cells are the answer as they stand.
#![tactic(auto)]

mod answering;
mod building;
mod cuboid;
mod rollups;

pub use cuboid::Cuboid;
pub use rollups::Rollups;
