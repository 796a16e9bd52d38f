// The changes that make another cube with the same answers.
use crate::Items;

/// A change at a place, in the measure's smallest unit.
#[derive(Clone, Copy, Debug, PartialEq, Eq)]
pub struct Change {
    /// The place.
    pub place: u32,
    /// What is added there, +1 or -1.
    pub by: i8,
}

/// The changes for a protected cell, in the order of places.
pub type Changes = Items<Change>;
