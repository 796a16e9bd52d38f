// The objects outside, in one value.
use cube_io::{Folder, Sink, Source, Store, Wire};

/// The objects outside that a run is given.
#[derive(Drop)]
pub struct World<F: Folder, S: Store, I: Source, O: Sink, W: Wire> {
    /// The files, by their names.
    pub files: F,
    /// The store of the journals.
    pub store: S,
    /// The lines that are asked.
    pub input: I,
    /// Where answers and texts go.
    pub out: O,
    /// The connections.
    pub wire: W,
}
