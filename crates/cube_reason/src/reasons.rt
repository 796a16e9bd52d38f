// Why a request is refused.
use cube_model::{Cell, Cells, Items};

/// Where a link comes from, numbered from 1.
#[derive(Clone, Copy, Debug, PartialEq, Eq)]
pub enum Origin {
    /// The entry of the history with this number.
    Entry(u64),
    /// The request's own link with this number.
    Own(u64),
}

/// A step from a place to another, along a pair of the two.
#[derive(Clone, Copy, Debug, PartialEq, Eq)]
pub struct WalkStep {
    /// Where it begins.
    pub from: u32,
    /// Where it leads.
    pub to: u32,
    /// Where the pair comes from.
    pub by: Origin,
}

/// A place that stands alone in a link.
#[derive(Clone, Copy, Debug, PartialEq, Eq)]
pub struct End {
    /// The place.
    pub place: u32,
    /// Where the link comes from.
    pub by: Origin,
}

/// The steps of a walk, the first one first.
pub type StepList = Items<WalkStep>;

/// Why a request is refused.
#[derive(Drop)]
pub enum Reason {
    /// Cells of the cuboid that the source would become make up the protected cell.
    Blocks {
        /// The protected cell.
        cell: Cell,
        /// The cells that make it up, by key.
        blocks: Cells,
    },
    /// A walk along pairs leads from the protected place back to it at odd length, or to a place alone.
    Walk {
        /// The protected place.
        place: u32,
        /// The steps of the walk.
        steps: StepList,
        /// The place alone, where the walk leads to one.
        end: Option<End>,
    },
}
