// What a history is made of.
ghost use Rattle.std.specs.Prelude.{◌≡◌};
ghost use Rattle.cube_model.specs.Entries.{is_on};

use crate::{Items, Levels, Link, Request};

/// What a history is made of.
#[derive(Drop)]
pub enum Entry {
    /// A request that was answered.
    Asked(Request),
    /// The levels of a source, which stand for requests on a lattice measure.
    Source { measure: u32, levels: Levels },
    /// A link, which stands with others for requests on a parity measure.
    Linked { measure: u32, link: Link },
}

/// The entries of a history, the earliest first.
pub type History = Items<Entry>;

impl Entry {
    /// Whether the entry is on the measure.
    pub fn is_on(&self, measure: u32) -> bool
        ensures { result ≡ is_on measure self.now }
    {
        match self {
            Entry::Asked(request) => request.asks_for(measure),
            Entry::Source {
                measure: number,
                ..
            }
            | Entry::Linked {
                measure: number,
                ..
            } => *number == measure,
        }
    }
}

/// What becomes of an entry behind a history.
#[derive(Clone, Copy, Debug, PartialEq, Eq)]
pub enum Taken {
    /// It becomes the last of the history.
    Taken,
    /// It brings nothing that the history does not hold, and is passed over.
    Passed,
    /// It may not stand behind the history.
    Refused,
}
