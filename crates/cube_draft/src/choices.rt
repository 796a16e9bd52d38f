// What is stated of the columns of a fact file.
use cube_model::{Items, Text, Texts};

/// A dimension that is stated: its name, and its columns, the finest first.
#[derive(Debug, Drop)]
pub struct Stated {
    pub name: Text,
    pub columns: Texts,
}

/// What is stated of the columns of a fact file before it is looked at.
#[derive(Debug, Drop)]
pub struct Choices {
    /// Dimensions, in the order in which they are to stand, before those that are found.
    pub dimensions: Items<Stated>,
    /// Columns that have members even where all their fields are numbers.
    pub members: Texts,
    /// Columns that are left out: they are no level and no measure.
    pub skipped: Texts,
}
