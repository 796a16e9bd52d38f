//! Which protected cells a source cuboid cuts.
//!
//! A cuboid has places together in blocks. It cuts a cell where a block has both a place that the
//! cell covers and one that it does not: then the sums by that cuboid leave the cell's sum open.
#![tactic(auto)]

mod blocks;
mod containing;
mod counting;
mod few;
mod fresh;
mod judging;
mod listing;
mod pair;
mod parting;
mod places;
mod protecting;
mod slices;
mod table;

pub use counting::{count_protected, count_protected_all};
pub use judging::{Judged, judge};
pub use listing::{guarded, protected};
pub use pair::cutting_pair;
pub use places::covers;
pub use protecting::protects;
pub use table::JudgeTable;
