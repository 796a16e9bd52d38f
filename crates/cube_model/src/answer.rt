// The rows of a request, and their sums.
use crate::{Items, Key, Places};

/// A row of a request: a group, and the picked places that fall into it.
#[derive(Drop)]
pub struct Row {
    /// The number of a member of each grouping level.
    pub key: Key,
    /// The places, in increasing order.
    pub places: Places,
}

/// The rows of a request, in the order of their keys.
pub type Rows = Items<Row>;

/// A row of an answer.
#[derive(Drop)]
pub struct AnswerRow {
    /// The number of a member of each grouping level.
    pub key: Key,
    /// The sum in the measure's smallest unit, or the number of facts.
    pub sum: i64,
}

/// The answer to a request: a sum for each row.
pub type Answer = Items<AnswerRow>;
