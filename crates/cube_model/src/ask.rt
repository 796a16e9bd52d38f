// What is asked of a server.
use crate::Text;

/// What is asked of one cube, in words.
#[derive(Debug, Drop)]
pub enum Question {
    /// The answer to a query's text.
    Query(Text),
    /// The changes that hide a cell, by the cell's text.
    Witness(Text),
    /// The public shape.
    Shape,
}

/// What is asked of a server: a question to its cube, or to that of a group.
#[derive(Debug, Drop)]
pub struct Ask {
    /// The group's name, 1 to 32 letters, digits, `_` or `-`; none for the cube of the server itself.
    pub group: Option<Text>,
    /// The question.
    pub question: Question,
}
