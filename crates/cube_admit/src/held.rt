// What is kept of each measure, and of a request that waits to enter the history.
use cube_colour::Colouring;
use cube_model::{Levels, Request};

/// What is kept of a measure.
#[derive(Drop)]
pub enum Held {
    /// Nothing: the measure is open.
    Open,
    /// The source of a lattice measure, where its history has one.
    Source(Option<Levels>),
    /// The links of a parity measure, also those of the request that waits.
    Links(Colouring),
}

/// What becomes of a measure once the request that waits has entered, or where it goes.
#[derive(Drop)]
pub enum Next {
    /// The source of a lattice measure becomes these levels where it enters.
    Source(Levels),
    /// The links of a parity measure go back to so many where it goes.
    Mark(u64),
}

/// A request with a fresh answer, which has not entered the history yet.
#[derive(Drop)]
pub struct Pending {
    /// The request.
    pub request: Request,
    /// The measure that it asks for.
    pub measure: u32,
    /// What becomes of the measure.
    pub next: Next,
}
