// The nonempty points of a cube, and its values.
use crate::{Items, Key};

/// The public shape of a cube: where it has facts, and how many.
#[derive(Drop)]
pub struct Shape {
    /// The nonempty core points, each a leaf for each dimension, in lexicographic order. The number
    /// of a point here is its place.
    pub points: Items<Key>,
    /// The number of facts at each point, at least 1.
    pub facts: Items<u64>,
}

/// The values of one measure, one for each place, in the measure's smallest unit.
pub type Values = Items<i64>;

/// The values of each measure.
pub type Cube = Items<Values>;
