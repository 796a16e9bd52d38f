// What became of an ask.
use crate::Items;

/// What the world outside did to an ask: it was given its reply, or a fault kept the reply back.
#[derive(Clone, Copy, Debug, PartialEq, Eq)]
pub enum Outcome {
    /// The reply of the rules was given.
    Given,
    /// The journal could not keep the request.
    JournalFault,
    /// There was no memory for the reply.
    NoMemory,
}

/// The outcomes of some asks, in their order.
pub type Outcomes = Items<Outcome>;
