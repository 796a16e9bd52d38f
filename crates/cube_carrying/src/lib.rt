//! Whether a cube continues another, what first keeps it from that, and the history that is carried
//! over where nothing does.
//!
//! Each part of what keeps a cube from it is a function of its own; `compare` goes through them in
//! turn, and `carry` makes the history.
#![tactic(auto)]

mod apart;
mod breach;
mod carried_cells;
mod cells;
mod crossings;
mod dimensions;
mod exposed;
mod held;
mod histories;
mod keys;
mod leaves;
mod links;
mod measures;
mod paths;
mod places;
mod points;
mod protecting;
mod slices;
mod sources;
mod telling;
mod texts;
mod unkept;

pub use breach::{Breach, Compared, compare};
pub use cells::unprotected_cell;
pub use dimensions::{missing_dimension, other_levels};
pub use histories::{Carried, Stop, carry};
pub use leaves::carried_leaves;
pub use measures::missing_measure;
pub use paths::missing_path;
pub use places::carried_places;
pub use points::missing_point;
pub use telling::{breach_text, stop_text};
