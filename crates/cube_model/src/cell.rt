// Cells of cuboids.
use crate::{Items, Key, Levels};

/// A cell: a member of one level in each dimension. It covers the places whose ancestors these
/// members are.
#[derive(Drop)]
pub struct Cell {
    /// The cuboid: a level for each dimension.
    pub levels: Levels,
    /// The number of a member of that level, for each dimension.
    pub key: Key,
}

/// A list of cells.
pub type Cells = Items<Cell>;

/// A list of cuboids, each a level for each dimension.
pub type Cuboids = Items<Levels>;
