// Links between places.
use crate::Items;

/// What one sum of a parity measure ties together: two places of a row, or one place alone.
#[derive(Clone, Copy, Debug, PartialEq, Eq)]
pub enum Link {
    /// Two places of a row.
    Pair(u32, u32),
    /// The last place of a row with an odd number of places.
    Single(u32),
}

/// A list of links.
pub type LinkList = Items<Link>;

/// For each place +1, -1 or 0.
pub type Signs = Items<i8>;
