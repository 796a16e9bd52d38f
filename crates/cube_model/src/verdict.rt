// What is said of a request before any value is looked at.
use crate::{Cell, Levels};

/// The verdict on a request.
#[derive(Drop)]
pub enum Verdict {
    /// It is answered. A fresh request becomes the last of the history.
    Answer {
        fresh: bool,
    },
    /// The history holds as many requests as it can.
    Full {
        held: u32,
    },
    /// The source of the measure would become these levels, which do not cut the protected cell.
    SourceWould {
        levels: Levels,
        cell: Cell,
    },
    /// The request's own link of this number, counted from 1, joins two places and fixes the
    /// protected place `cell`.
    Pair {
        index: u32,
        first: u32,
        second: u32,
        cell: u32,
    },
    /// The request's own link of this number, counted from 1, is one place alone and fixes the
    /// protected place `cell`.
    Single {
        index: u32,
        place: u32,
        cell: u32,
    },
}
